// The RTP header in words, with the blocks of a redundancy payload.
use crate::{blocks, words};
use console_text::STDOUT_FILENO;
use console_text::lines::{Line, NotWritten};
use console_text::words::Count;
use read_headers::header;
use read_headers::header::Header;
use rtp::settings::Settings;
use std::fmt::Write;

// The fields of the fixed header.
fn print_fields(head: Header) -> Result<(), NotWritten> {
    let marker = if head.marker == 0 {
        "no marker"
    } else {
        "marker"
    };
    let mut line = Line::new();
    write!(
        line,
        "  sequence {}, timestamp {}, source 0x",
        head.sequence, head.timestamp,
    )?;
    line.put_word(head.source);
    write!(line, ", payload type {}, {marker}", head.payload_type)?;
    line.print(STDOUT_FILENO)
}

// The parts before the payload, of which the first byte tells, and its bounds, in a packet of so many bytes.
fn print_parts(first: u8, length: usize, head: Header) -> Result<(), NotWritten> {
    let sources = Count(
        (first % 16) as u64,
        "contributing source",
        "contributing sources",
    );
    let extension = if first / 16 % 2 == 0 {
        "no extension"
    } else {
        "an extension"
    };
    let padding = length.wrapping_sub(head.end);
    let payload = words::bytes(head.end.wrapping_sub(head.start));
    let mut line = Line::new();
    if first % 16 == 0 {
        write!(line, "  no contributing sources, {extension}")?;
    } else {
        write!(line, "  {sources}, {extension}")?;
    }
    if padding == 0 {
        write!(line, ", no padding")?;
    } else {
        write!(line, ", padding of {}", words::bytes(padding))?;
    }
    write!(line, "; payload of {payload} from byte {}", head.start)?;
    line.print(STDOUT_FILENO)
}

// The blocks, where the payload type is the redundancy type.
fn print_blocks(settings: Settings, head: Header, bytes: &[u8]) -> Result<(), NotWritten> {
    if head.payload_type == settings.redundancy_type {
        if let Some(payload) = bytes.get(head.start..head.end) {
            return blocks::print(settings.payload_type, head.timestamp, payload);
        }
    }
    Ok(())
}

// The header, as far as there is one.
pub(crate) fn print(settings: Settings, bytes: &[u8]) -> Result<(), NotWritten> {
    if bytes.len() == 0 {
        return Ok(());
    }
    let first = bytes[0];
    match header::read_header(bytes) {
        Err(_) => Ok(()),
        Ok(head) => {
            print_fields(head)?;
            print_parts(first, bytes.len(), head)?;
            print_blocks(settings, head, bytes)
        }
    }
}
