// A kept log (document 02, P3) in words, on standard output: its settings, a line for each frame, and the end or the refusal.
#![tactic(auto)]

pub mod printing;
mod words;
