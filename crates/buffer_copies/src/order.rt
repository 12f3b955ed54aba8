// Time modulo 2^32, and pairs of time and channel.
ghost use Rattle.std.specs.Prelude.{◌≡◌};
ghost use Rattle.buffer_copies.specs.Pairs.{ahead, after, order, side_order};

use rtp::time;
use std::cmp::Ordering;

// Half the range of time: a time from here on is not ahead.
pub const HALF: u32 = 2147483648;

// How far time t is ahead of time h.
pub fn ticks_ahead(t: u32, h: u32) -> u32
    ensures { result ≡ ahead t h }
{
    time::difference(t, h)
}

pub fn is_after(t: u32, h: u32) -> bool
    ensures { result ≡ after t h }
{
    let distance = ticks_ahead(t, h);
    0 < distance && distance < HALF
}

// Where the pair (t, c) lies from the pair (h, d).
pub fn side_of(t: u32, c: u32, h: u32, d: u32) -> Ordering
    ensures { side_order result ≡ order t c h d }
{
    if t == h {
        return c.cmp(&d);
    }
    if is_after(t, h) {
        return Ordering::Greater;
    }
    Ordering::Less
}
