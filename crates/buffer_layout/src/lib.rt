// The reorder buffer's layout: its columns, and the test of well-formedness.
#![tactic(auto)]

pub mod buffer;
pub mod columns;
pub mod well_formed;
