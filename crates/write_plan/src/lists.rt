// Frame lists: the rows in a word area.
ghost use Rattle.std.specs.Prelude.{◌≡◌, ◌^◌, ◌<◌, get_or};
ghost use Rattle.write_plan.specs.Lists.{rows_in, outside};
ghost use Rattle.write_plan.specs.Room.{words_at};

use rtp::sizes::ROW_WIDTH;

// The four words of a row.
#[derive(Clone, Copy, Debug, PartialEq, Eq)]
pub struct RowWords {
    pub time: u32,
    pub tag: u32,
    pub start: u32,
    pub length: u32,
}

// A word of the area, and 0 past its end.
fn word_at(rows: &[u32], at: usize) -> u32
    ensures { result ≡ get_or rows.now at 0 }
{
    if at < rows.len() { rows[at] } else { 0 }
}

// The words of the area's first row, with 0 for one past the end.
pub fn first_row(rows: &[u32]) -> RowWords
    ensures { result ≡ words_at rows.now 0 }
{
    RowWords {
        time: word_at(rows, 0),
        tag: word_at(rows, 1),
        start: word_at(rows, 2),
        length: word_at(rows, 3),
    }
}

fn wide(x: u32) -> usize
    ensures { (result ≡ x) × (result < 2 ^ 32) }
{
    x as usize
}

// Whether some row's start + length is over n.
pub fn any_outside(rows: &[u32], n: usize) -> bool
    ensures { result ≡ outside n (rows_in rows.now) }
{
    for words in rows.chunks_exact(ROW_WIDTH) {
        let end = wide(words[2]) + wide(words[3]);
        if n < end {
            return true;
        }
    }
    false
}
