// The answers of the calls on kept logs (document 02, P3), in C's fields.
#![tactic(auto)]

pub mod log_answers;
