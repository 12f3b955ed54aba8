// Document 02, P3: logs, whole and damaged, read, read on from records, and written, each printed in words, or its refusal. They are on standard
// input.
#![tactic(auto)]

mod cases;
mod example;

use cases::Case;
use examples_text::script;

fn main() {
    let mut case = Case::new();
    for line in script::input() {
        case.follow(&line);
    }
}
