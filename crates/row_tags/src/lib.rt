// A row's second word.
#![tactic(auto)]

pub mod tagging;
