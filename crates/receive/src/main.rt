// Receives a stream: reads packets from standard input, in the framing of RFC 4571, and prints every frame once, in time order, as soon
// as the reorder buffer has to make room, every gap between frames, and every packet refused; then a summary. Or it writes the frames as a log. The
// arguments are the settings, and `log` for a log.
#![tactic(auto)]

mod gaps;
mod gathering;
mod logging;
mod printing;
mod room;
mod sources;
mod totals;

use console::arguments;
use console::arguments::Program;

const RECEIVE: Program = Program {
    name: b"receive",
    purpose: b"   or: receive FORMAT CHANNELS TYPE REDUNDANCY log < PACKETS\nPrints each frame once, in time order: time, channel, class, length, bytes, first-hand or by-redundancy; each gap; each packet refused; then a summary.\nWith `log` it writes the frames to standard output as a log, which show_log prints, and packets refused and the summary to standard error.\n",
};

fn main(rt: HostRuntime) {
    if let Some(settings) = RECEIVE.read_with(&rt, b"log") {
        let log = arguments::is_word(&rt, 5, b"log");
        if gathering::receive(&rt, settings, log).is_err() {
            RECEIVE.say_not_written();
        }
    }
}
