// Which packets of a source are valid (RFC 3550, appendix A.1).
#![tactic(auto)]

pub mod record;
pub mod sequence;
