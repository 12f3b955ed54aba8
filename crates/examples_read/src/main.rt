// Reads packets, whole and damaged, and prints for each what reading answers: the refusal's number and offset; or row count, marker,
// sequence, timestamp and source, in AMR and AMR-WB the mode request, and a line for each row with its time, class, channel, start,
// length, and 1 if it was heard first-hand (document 02, P6), 0 if in a redundant block. The packets are on standard input.
#![tactic(auto)]

mod cases;
mod example;

use cases::Case;
use examples_text::script;

fn main() {
    let mut case = Case::new();
    for line in script::input() {
        case.follow(&line);
    }
}
