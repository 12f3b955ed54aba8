// The C ABI: include/heolstorpit.h declares the same structs and functions under their C names. Settings, buffer, reception
// record and log cursor are the library's own structs, laid out as C lays them out.
#![tactic(auto)]

pub mod buffers;
pub mod logs;
pub mod packets;
pub mod reading;
pub mod reports;
pub mod writing;
