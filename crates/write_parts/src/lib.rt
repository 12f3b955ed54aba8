// The parts of a packet that is written: the sizes and times of its frame lists, and its headers.
#![tactic(auto)]

pub mod headers;
pub mod sizes;
