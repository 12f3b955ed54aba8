// What the programs on a console share: settings from arguments, the stream of packets or all bytes on standard input, lines of frames, and refusals in words.
// Where an answer comes from the operating system, the rules leave it open, and the contract limits it.
#![tactic(auto)]

pub mod arguments;
pub mod frame_lines;
pub mod refusals;
pub mod standard_input;
pub mod stream;
