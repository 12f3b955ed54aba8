// The fields of a kept log (document 02, P3), for its reader and its writer.
#![tactic(auto)]

pub mod fields;
