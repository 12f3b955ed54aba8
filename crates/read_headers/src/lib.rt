// The RTP header (RFC 3550) and the redundancy block headers (RFC 2198), read.
#![tactic(auto)]

pub mod header;
pub mod redundancy;
