// The stream of packets on standard input, in the framing of RFC 4571: each packet behind its length in bytes, a 16-bit number with the high byte first.
ghost use Rattle.std.specs.Prelude.{◌<◌, IfSome};
ghost use Rattle.io.specs.Counts.{IsPrefixLen};
ghost use Rattle.console.specs.Answers.{Short};

use crate::arguments::Program;
use console_text::words::Count;
use std::io::Read;

// Room for a packet of any 16-bit length.
pub const AREA: usize = 65536;

// Says that the input ends in the packet of this number, counted from 1, and how many bytes are missing; `of` says of what, if not of the packet itself.
fn say_cut(program: Program<'_>, number: u64, missing: usize, of: &str) {
    program.say(format_args!(
        "the input ends in packet {number}: {}{of} missing",
        Count(missing as u64, "byte", "bytes"),
    ));
}

// Reads until the area is full, the input ends or a read fails; answers how many bytes it put at the area's front.
fn read_full(input: &mut impl Read, area: &mut [u8]) -> usize
    ensures { IsPrefixLen result area.new }
{
    let mut n = 0;
    while n < area.len() {
        match input.read(&mut area[n..]) {
            Ok(0) => return n,
            Ok(more) => n += more,
            Err(_) => return n,
        }
    }
    n
}

// A packet's length, if the input has both of its bytes.
fn read_length(input: &mut impl Read, program: Program<'_>, number: u64) -> Option<usize>
    ensures { IfSome result (λ n. n < 65536) }
{
    let mut high = [0u8; 1];
    match input.read(&mut high) {
        Ok(0) => return None,
        Ok(_) => {}
        Err(why) => {
            program.say_failed(why);
            return None;
        }
    }
    let mut low = [0u8; 1];
    if read_full(input, &mut low) == 0 {
        say_cut(program, number, 1, " of its length");
        return None;
    }
    Some(u16::from_be_bytes([high[0], low[0]]) as usize)
}

// The next packet, which is the one of this number, at the front of the area; none at the end, also where a packet is cut. What stands in the input is
// the operating system's answer, and the rules leave it open; but a packet is never longer than the area.
pub fn next<'a>(
    input: &mut impl Read,
    program: Program<'_>,
    number: u64,
    area: &'a mut [u8; AREA],
) -> Option<&'a [u8]>
    ensures { Short result }
{
    let n = read_length(input, program, number)?;
    let got = read_full(input, &mut area[..n]);
    if got < n {
        say_cut(program, number, n - got, "");
        return None;
    }
    Some(&area[..n])
}
