// Frames laid into the columns and the store of a reorder buffer, and their verdicts counted. Every function takes every count, place and length.
#![tactic(auto)]

pub mod laying;
pub mod tally;
