// The payload formats: a payload read into frame rows.
#![tactic(auto)]

pub mod reading;
