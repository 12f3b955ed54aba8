// The codes of frames: the inverse of a format's frame table, and which frames a format allows.
#![tactic(auto)]

mod amr_codes;
pub mod coding;
