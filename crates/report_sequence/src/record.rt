// What appendix A.1 keeps of a source, and its figures.

// The sequence numbers there are, and one that none of them is.
pub const SEQUENCES: u32 = 65536;

pub const NO_SEQUENCE: u32 = SEQUENCES + 1;

// The packets in sequence that make a source valid; how far forward, and how far back, is no longer in order.
pub const MIN_SEQUENTIAL: u32 = 2;

pub const MAX_DROPOUT: u32 = 3000;

pub const MAX_MISORDER: u32 = 100;

// A fresh record is all zeros.
#[repr(C)]
#[derive(Clone, Copy, Debug, Default, PartialEq, Eq)]
pub struct Counts {
    pub probation: u32,
    pub started: u32,
    pub base: u32,
    pub highest: u32,
    pub bad: u32,
    pub cycles: u32,
    pub received: u32,
    pub expected_prior: u32,
    pub received_prior: u32,
}
