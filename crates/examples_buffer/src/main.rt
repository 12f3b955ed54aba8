// Document 001's six interleaved packets, each of four frame-blocks five apart, offered to a fresh buffer in several orders, then drawn
// until the buffer is empty; then packets of AMR and AMR-WB, some that are refused, and frames heard first-hand or not. Prints for each
// offer how often each verdict was given, or the refusal and its offset in the packet, and the frame-blocks drawn. All offers and draws
// are on standard input.
#![tactic(auto)]

mod cases;
mod example;

use cases::Case;
use examples_text::script;

fn main() {
    let mut case = Case::new();
    for line in script::input() {
        case.follow(&line);
    }
}
