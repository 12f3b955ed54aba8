// The mode request of a packet.
#![tactic(auto)]

pub mod requests;
