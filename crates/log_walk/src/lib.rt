// Kept logs (document 02, P3), read: the opening, and a step to the next frame, on a slice and numbers.
#![tactic(auto)]

pub mod frames;
pub mod opening;
pub mod stepping;
