// Columns of a buffer.
ghost use Rattle.std.specs.Prelude.{◌≡◌, ◌≤◌, drop};
ghost use Rattle.buffer_copies.specs.Sizes.{slots};
ghost use Rattle.buffer_layout.specs.Columns.{zeros};

use buffer_slots::bits::SLOTS;

// Whether a column is zero from the n-th value on.
pub(crate) fn zero_from(column: &[u32; SLOTS], n: usize) -> bool
    requires { n ≤ slots }
    ensures { result ≡ zeros (drop n column.now) }
{
    let values: &[u32] = column;
    let mut any = 0;
    for value in &values[n..] {
        any |= *value;
    }
    any == 0
}
