// The place at fault in a packet, with the bytes around it.
use console_text::STDOUT_FILENO;
use console_text::lines::{Line, NotWritten};
use std::fmt;
use std::fmt::Write;

// The bytes that are shown before a place, and after it.
const AROUND: usize = 4;

// The first bytes of s, at most as many as are shown, each after a blank.
fn put_bytes(line: &mut Line, s: &[u8]) -> fmt::Result {
    for byte in s.iter().take(AROUND) {
        write!(line, " {byte:02x}")?;
    }
    Ok(())
}

// The byte at a place in brackets and those behind it, or the word for the packet's end.
fn put_marked(line: &mut Line, bytes: &[u8], place: usize) -> fmt::Result {
    if place < bytes.len() {
        write!(line, " [{:02x}]", bytes[place])?;
        return put_bytes(line, &bytes[place + 1..]);
    }
    write!(line, " [end]")
}

// The line of a place that is not 0, which stands for none.
pub(crate) fn print(bytes: &[u8], place: usize) -> Result<(), NotWritten> {
    if place == 0 {
        return Ok(());
    }
    let from = place.saturating_sub(AROUND);
    let mut line = Line::new();
    write!(line, "    from byte {from}:")?;
    if place <= bytes.len() {
        put_bytes(&mut line, &bytes[from..place])?;
    }
    put_marked(&mut line, bytes, place)?;
    line.print(STDOUT_FILENO)
}
