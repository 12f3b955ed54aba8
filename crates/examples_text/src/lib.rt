// The example programs' cases, read from standard input. A text is lines, each of words with one space between; blank lines and lines
// that start with # are passed over. A line that is not as it should be is printed as malformed on standard output.
#![tactic(auto)]

pub mod printing;
pub mod script;
pub mod values;
