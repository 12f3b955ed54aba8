// The blocks of a redundancy payload, from their headers.
use crate::words;
use console_text::STDOUT_FILENO;
use console_text::lines::{Line, NotWritten};
use read_headers::redundancy;
use read_headers::redundancy::{BlockHeader, Redundant};
use rtp::time;
use std::fmt;
use std::fmt::Write;

// What is said of a block's type: one of another type than the agreed one gives no frames.
fn remark(block_type: u8, payload_type: u8) -> &'static str {
    if block_type == payload_type {
        ""
    } else {
        " (another type, passed over)"
    }
}

fn print_redundant(payload_type: u8, timestamp: u32, block: Redundant) -> Result<(), NotWritten> {
    words::print(format_args!(
        "  redundant block: type {}{}, offset {} (time {}), {}",
        block.payload_type,
        remark(block.payload_type, payload_type),
        block.offset,
        time::difference(timestamp, block.offset),
        words::bytes(block.length),
    ))
}

// The bytes that are left for the primary block of the payload s.
fn put_rest(line: &mut Line, s: &[u8]) -> fmt::Result {
    match redundancy::read_headers(s) {
        Err(_) => Ok(()),
        Ok(sizes) => {
            let before = sizes.size.wrapping_add(sizes.redundant);
            if before <= s.len() {
                return write!(line, ", {}", words::bytes(s.len() - before));
            }
            let over = words::bytes(before - s.len());
            write!(
                line,
                ", no bytes: the blocks before it run {over} past the end"
            )
        }
    }
}

fn print_primary(
    payload_type: u8,
    timestamp: u32,
    block_type: u8,
    s: &[u8],
) -> Result<(), NotWritten> {
    let remark = remark(block_type, payload_type);
    let mut line = Line::new();
    write!(
        line,
        "  primary block: type {block_type}{remark}, time {timestamp}"
    )?;
    put_rest(&mut line, s)?;
    line.print(STDOUT_FILENO)
}

// The block whose header stands at the front of `headers`, in the payload s; answers whether another header follows.
fn print_block(
    payload_type: u8,
    timestamp: u32,
    headers: &[u8],
    s: &[u8],
) -> Result<bool, NotWritten> {
    match redundancy::read_block_header(headers) {
        Err(_) => {
            let n = words::bytes(headers.len());
            words::print(format_args!("  block header cut off after {n}"))?;
            Ok(false)
        }
        Ok(BlockHeader::Primary(block_type)) => {
            print_primary(payload_type, timestamp, block_type, s)?;
            Ok(false)
        }
        Ok(BlockHeader::Redundant(block)) => {
            print_redundant(payload_type, timestamp, block)?;
            Ok(true)
        }
    }
}

// The blocks of the redundancy payload s, in the order of their headers.
pub(crate) fn print(payload_type: u8, timestamp: u32, s: &[u8]) -> Result<(), NotWritten> {
    let mut headers = s;
    while print_block(payload_type, timestamp, headers, s)? {
        if headers.len() < 4 {
            break;
        }
        headers = &headers[4..];
    }
    Ok(())
}
