// Packets: read into frame rows.
#![tactic(auto)]

pub mod reading;
