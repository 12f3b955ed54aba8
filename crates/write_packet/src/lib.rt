// Packets written from frame rows.
#![tactic(auto)]

pub mod packets;
