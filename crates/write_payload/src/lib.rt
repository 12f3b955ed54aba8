// Payloads written from frame rows.
#![tactic(auto)]

pub mod tables;
pub mod writing;
