// Frame rows: a table of contents and its frames read into a row area.
#![tactic(auto)]

pub mod rows;
