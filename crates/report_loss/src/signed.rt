// Numbers modulo 2^32 read as signed.
ghost use Rattle.std.specs.Prelude.{◌≡◌, unsigned_abs};
ghost use Rattle.report_loss.specs.Signed.{signed};

// The 32 bits read as signed: a number from 2^31 on stands for itself less 2^32.
pub fn as_signed(x: u32) -> i32
    ensures { result ≡ signed x }
{
    x.cast_signed()
}

// The size of a signed number, exact at the lowest too: 2^31.
pub fn size(x: i32) -> u32
    ensures { result ≡ unsigned_abs x }
{
    x.unsigned_abs()
}
