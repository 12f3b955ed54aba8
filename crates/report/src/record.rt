// What is kept of a source.
ghost use Rattle.std.specs.Prelude.{◌≡◌};
ghost use Rattle.report.specs.WellFormed.{well_formed};

use report_sequence::record::{Counts, MIN_SEQUENTIAL};

// The largest jitter sum: 2^35 - 8.
pub const MAX_SUM: u64 = 0x8_0000_0000 - 8;

// The jitter sum (16 times the jitter), what A.1 keeps, and the transit of the last valid packet, if there was one.
#[repr(C)]
#[derive(Clone, Copy, Debug, Default, PartialEq, Eq)]
pub struct Reception {
    pub jitter: u64,
    pub counts: Counts,
    pub transit: u32,
    pub transit_set: u32,
}

// Probation at most 2, and the sum at most 2^35 - 8.
#[tactic(auto, unfolding(crate::specs::WellFormed::well_formed))]
pub fn well_formed(reception: Reception) -> bool
    ensures { result ≡ well_formed reception }
{
    reception.counts.probation <= MIN_SEQUENTIAL && reception.jitter <= MAX_SUM
}
