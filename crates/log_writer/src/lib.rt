// Kept logs (document 02, P3), written: a field at a time, or a whole log of rows.
#![tactic(auto)]

pub mod field_bytes;
pub mod writing;
