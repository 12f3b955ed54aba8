// Kept logs (document 02, P3), read by a record that keeps the lent part, its place, the settings and the count.
#![tactic(auto)]

pub mod readers;
