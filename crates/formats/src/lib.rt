// The payload formats as data: what each is, and its frame table.
#![tactic(auto)]

mod amr;
pub mod facts;
pub mod frames;
