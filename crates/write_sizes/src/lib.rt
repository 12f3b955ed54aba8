// What the writer of a payload is asked with, and how long the payload is.
#![tactic(auto)]

pub mod asking;
pub mod measuring;
