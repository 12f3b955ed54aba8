// Redundancy payloads (RFC 2198): read into frame rows.
#![tactic(auto)]

pub mod blocks;
