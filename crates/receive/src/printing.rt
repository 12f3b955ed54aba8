// Frames, gaps, refused packets and the summary, each line written once. Frames and gaps go to standard output, refused packets and the summary to `fd`,
// which is standard error where standard output has the log. Warnings and progress go to standard error.
use crate::RECEIVE;
use crate::gaps::Gaps;
use crate::sources::Sources;
use crate::totals::Totals;
use buffer_draw::draws::DrawnFrame;
use console::{frame_lines, refusals};
use console_text::lines::{Line, NotWritten};
use console_text::words::Count;
use console_text::{STDERR_FILENO, STDOUT_FILENO, lines};
use report::calls;
use report::calls::ReportBlock;
use report::record::Reception;
use row_tags::tagging::PRIMARY;
use rtp::refusal::{Fault, Refusal};
use std::fmt::{Display, Write};

// Progress is said after each so many packets.
const PROGRESS: u64 = 100000;

// Whether standard error takes what is printed is not asked.
fn taken(fd: i32, printed: Result<(), NotWritten>) -> Result<(), NotWritten> {
    if fd == STDERR_FILENO {
        return Ok(());
    }
    printed
}

// Words on a line.
fn print(fd: i32, words: impl Display + Drop) -> Result<(), NotWritten> {
    taken(fd, lines::print(fd, words))
}

// A line: time, channel, class, length, the bytes in hexadecimal, and whether they were heard first-hand. A frame has no more bytes than these.
pub(crate) fn print_frame(frame: DrawnFrame, bytes: &[u8]) -> Result<(), NotWritten> {
    let mut line = Line::new();
    if let Some(sound) = bytes.get(..frame.length as usize) {
        frame_lines::put_frame(&mut line, frame.time, frame.channel, frame.class, sound);
    }
    if frame.primary == PRIMARY as u32 {
        line.put(b" first-hand");
    } else {
        line.put(b" by-redundancy");
    }
    line.print(STDOUT_FILENO)
}

// A line: the times before and after the gap, and the frame-blocks missing. None where none is missing.
pub(crate) fn print_gap(from: u32, to: u32, missing: u32) -> Result<(), NotWritten> {
    if missing == 0 {
        return Ok(());
    }
    let blocks = Count(missing as u64, "frame-block", "frame-blocks");
    print(
        STDOUT_FILENO,
        format_args!("gap from {from} to {to}: {blocks} missing"),
    )
}

// A line: the number of a packet that was refused, the refusal's, the place at fault if it has one, and the reason.
pub(crate) fn print_fault(fd: i32, packet: u64, fault: Fault) -> Result<(), NotWritten> {
    let number = u32::from(fault.refusal);
    let reason = refusals::reason(number);
    if fault.offset == 0 {
        return print(
            fd,
            format_args!("packet {packet}: refusal {number}: {reason}"),
        );
    }
    print(
        fd,
        format_args!(
            "packet {packet}: refusal {number} at offset {}: {reason}",
            fault.offset
        ),
    )
}

fn print_counts(fd: i32, totals: &Totals) -> Result<(), NotWritten> {
    print(
        fd,
        format_args!(
            "packets {}, refused {}, frames {}, inserted {}, repeated {}, better {}, late {}, far {}, no room {}",
            totals.packets,
            totals.refused,
            totals.frames,
            totals.inserted,
            totals.repeated,
            totals.better,
            totals.late,
            totals.far,
            totals.no_room,
        ),
    )?;
    print(
        fd,
        format_args!(
            "heard first-hand {}, by redundancy {}",
            totals.first_hand, totals.by_redundancy
        ),
    )
}

// The refusals that occurred: number, how often, and reason.
fn print_refusals(fd: i32, totals: &Totals) -> Result<(), NotWritten> {
    for (number, count) in totals.refusals.iter().enumerate() {
        if *count > 0 {
            let packets = Count(*count, "packet", "packets");
            let reason = refusals::reason(number as u32);
            print(fd, format_args!("refusal {number}, {packets}: {reason}"))?;
        }
    }
    Ok(())
}

// Packets of another source than the first's; nothing if there are none.
fn print_sources(fd: i32, sources: &Sources) -> Result<(), NotWritten> {
    match sources.first {
        Some(first) if sources.others > 0 => {
            let packets = Count(sources.others, "packet is", "packets are");
            let mut line = Line::new();
            write!(line, "more than one source: {packets} not of source 0x")?;
            line.put_word(first);
            taken(fd, line.print(fd))
        }
        _ => Ok(()),
    }
}

fn print_block(fd: i32, block: ReportBlock) -> Result<(), NotWritten> {
    print(
        fd,
        format_args!(
            "report: fraction lost {}, cumulative lost {}, highest sequence {}",
            block.fraction_lost, block.cumulative_lost, block.highest_sequence,
        ),
    )
}

// The report on the first source. It is never refused: the record comes from the calls.
fn print_report(fd: i32, heard: Reception) -> Result<(), NotWritten> {
    match calls::report(heard).answer {
        Ok(block) => print_block(fd, block),
        Err(_) => Ok(()),
    }
}

// The summary.
pub(crate) fn print_summary(
    fd: i32,
    totals: &Totals,
    gaps: &Gaps,
    sources: &Sources,
) -> Result<(), NotWritten> {
    print_counts(fd, totals)?;
    print_refusals(fd, totals)?;
    print(
        fd,
        format_args!("gaps {}, frame-blocks missing {}", gaps.count, gaps.missing),
    )?;
    print_sources(fd, sources)?;
    print_report(fd, sources.heard)
}

// Says that the packet of this number is the first of another source than the packets before it.
pub(crate) fn warn_source(number: u64, source: u32, first: u32) {
    let mut line = RECEIVE.line();
    let _ = write!(line, "warning: packet {number} is of source 0x");
    line.put_word(source);
    line.put(b", those before it of 0x");
    line.put_word(first);
    line.put(b"; frames of more than one source are merged");
    let _ = line.print(STDERR_FILENO);
}

// Says that a field of the log is left out, and why.
pub(crate) fn say_left_out(why: Refusal) {
    let number = u32::from(why);
    let reason = refusals::reason(number);
    RECEIVE.say(format_args!("a field of the log is left out: refusal {number}: {reason}"));
}

// Says how far the stream is read, after each 100,000 packets.
pub(crate) fn say_progress(totals: &Totals) {
    if totals.packets % PROGRESS == 0 {
        RECEIVE.say(format_args!(
            "{} packets read, frames drawn: {}",
            totals.packets, totals.frames
        ));
    }
}
