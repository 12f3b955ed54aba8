// Time modulo 2^32.
ghost use Rattle.std.specs.Prelude.{◌≡◌};
ghost use Rattle.rtp.specs.Time.{difference as difference_of};

// a less b round the wrap: how far time a is ahead of time b, or the time b ticks before a.
pub fn difference(a: u32, b: u32) -> u32
    ensures { result ≡ difference_of a b }
{
    std::num::wrapping_sub_u32(a, b)
}
