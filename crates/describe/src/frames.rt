// Frames in words, from their rows.
use crate::words;
use crate::words::Class;
use console_text::STDOUT_FILENO;
use console_text::lines::{Line, NotWritten};
use console_text::words::Count;
use row_tags::tagging;
use rtp::sizes::{ROW_AREA, ROW_WIDTH};
use std::fmt::Write;

// A frame of this format, by the four words of its row.
fn print_frame(format: u8, time: u32, tag: u32, start: u32, length: u32) -> Result<(), NotWritten> {
    let class = tagging::tag_class(tag);
    let channel = tagging::tag_channel(tag);
    let mut line = Line::new();
    write!(line, "    time {time}, channel {channel}, {}", Class(class))?;
    if class != 0 {
        if let Some(kind) = words::type_of(format, class, length) {
            write!(line, ", type {kind}")?;
        }
        write!(
            line,
            ", {} from byte {start}",
            words::bytes(length as usize)
        )?;
    }
    line.print(STDOUT_FILENO)
}

// How many frames of this format there are, and each of them.
pub(crate) fn print(format: u8, rows: &[u32; ROW_AREA], count: u32) -> Result<(), NotWritten> {
    if count == 0 {
        return words::print("  no frames");
    }
    words::print(format_args!("  {}", Count(count as u64, "frame:", "frames:")))?;
    for row in rows.chunks_exact(ROW_WIDTH).take(count as usize) {
        if let [time, tag, start, length] = row {
            print_frame(format, *time, *tag, *start, *length)?;
        }
    }
    Ok(())
}
