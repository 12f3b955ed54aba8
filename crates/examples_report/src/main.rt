// Streams of packets of one source, with the arrival clock, and reports between them: prints of each packet whether it is valid, and each report.
#![tactic(auto)]

mod example;
mod jitter;
mod made;
mod sequences;

fn main() {
    sequences::none_valid();
    sequences::in_probation();
    sequences::after_probation();
    sequences::probation_again();
    sequences::losses();
    sequences::repeats();
    sequences::steps();
    sequences::restart();
    sequences::long_rows();
    jitter::clock_wraps();
    jitter::clock_back();
    jitter::lowest();
    jitter::not_valid();
    made::refused();
    made::clamped();
    made::wide();
}
