// Reception reports (RFC 3550, appendix A): what is kept of a source, the jitter of its packets, and the three calls.
#![tactic(auto)]

pub mod calls;
pub mod jitter;
pub mod record;
