// RTP: time round the wrap, numbers in bytes, the paper's figures, settings and refusals.
#![tactic(auto)]

pub mod bytes;
pub mod payload_format;
pub mod refusal;
pub mod settings;
pub mod sizes;
pub mod time;
