// The order of frames in time, better copies, and the verdict on a copy.
#![tactic(auto)]

pub mod compare;
pub mod order;
pub mod verdict;
