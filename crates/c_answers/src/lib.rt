// The library's answers in C's fields: what the C functions of heolstorpit answer, but for buffer and record.
#![tactic(auto)]

pub mod buffer_answers;
pub mod read_answers;
pub mod reception_answers;
pub mod write_answers;
