// Text that the programs on a console share: lines of output, and numbers from arguments.
#![tactic(auto)]

pub mod lines;
pub mod numbers;
pub mod words;

// The numbers of standard output and standard error.
pub const STDOUT_FILENO: i32 = 1;

pub const STDERR_FILENO: i32 = 2;
