// Prints RTP packets in words: header, redundancy blocks, mode request and frames, or why a packet is refused and at which byte. What is
// printed is the library's answer. The packets come on standard input in the framing of RFC 4571.
#![tactic(auto)]

mod blocks;
mod description;
mod frames;
mod header;
mod places;
mod words;

use console::arguments::Program;
use console::stream;
use console_text::lines::NotWritten;
use rtp::settings::Settings;
use std::io::Read;

const DESCRIBE: Program = Program {
    name: b"describe",
    purpose: b"Prints each packet in words: header, redundancy blocks and frames, or why it is refused.\n",
};

// All packets, up to a number that no run reaches.
fn print_all(input: &mut impl Read, settings: Settings) -> Result<(), NotWritten> {
    let mut area = io::large_buffer();
    for number in 1..u64::MAX {
        match stream::next(input, DESCRIBE, number, &mut area) {
            Some(packet) => description::print(settings, number, packet)?,
            None => break,
        }
    }
    Ok(())
}

fn main(rt: HostRuntime) {
    if let Some(settings) = DESCRIBE.read(&rt) {
        let mut input = rt.reader();
        if print_all(&mut input, settings).is_err() {
            DESCRIBE.say_not_written();
        }
    }
}
