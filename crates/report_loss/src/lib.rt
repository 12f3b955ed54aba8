// The packets expected and lost of a source (RFC 3550, appendix A.3), and numbers modulo 2^32 read as signed.
#![tactic(auto)]

pub mod losses;
pub mod signed;
