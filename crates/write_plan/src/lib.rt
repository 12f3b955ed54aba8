// Frame lists, and the tables of contents that they are written with.
#![tactic(auto)]

pub mod lists;
pub mod planning;
