// The marks of occupied slots: which are free, and how many are held.
#![tactic(auto)]

pub mod bits;
