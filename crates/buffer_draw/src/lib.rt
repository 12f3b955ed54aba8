// The reorder buffer hands out its earliest frame: the call draw.
#![tactic(auto)]

pub mod draws;
