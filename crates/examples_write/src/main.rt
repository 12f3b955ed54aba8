// Writes payloads and packets and prints their bytes, or the refusal; and reads each packet back and prints its rows, each with whether it
// was heard first-hand and the first byte of its frame, in AMR and AMR-WB the mode request too. The rows are on standard input.
#![tactic(auto)]

mod cases;
mod example;

use cases::Case;
use examples_text::script;

fn main() {
    let mut case = Case::new();
    for line in script::input() {
        case.follow(&line);
    }
}
