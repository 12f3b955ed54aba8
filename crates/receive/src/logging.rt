// The log of the frames that are drawn (document 02, P3), on standard output, a field at a time.
use crate::printing;
use buffer_draw::draws::DrawnFrame;
use buffer_layout::buffer::SLOT_SIZE;
use console_text::lines::NotWritten;
use console_text::{STDOUT_FILENO, lines};
use log_fields::fields::{FRAME_HEAD, HEAD_SIZE};
use log_writer::field_bytes;
use rtp::refusal::Refusal;
use rtp::settings::Settings;

// The bytes of the longest frame's field, which is the longest field.
const FIELD_SIZE: usize = HEAD_SIZE + FRAME_HEAD + SLOT_SIZE;

// The field at the front of the area. One that is refused is said, and left out: it never is, but for the end of a log of more frames than it
// can count.
fn write(put: Result<usize, Refusal>, area: &[u8]) -> Result<(), NotWritten> {
    match put {
        Ok(n) => lines::write(STDOUT_FILENO, area.get(..n).ok_or(NotWritten)?),
        Err(why) => {
            printing::say_left_out(why);
            Ok(())
        }
    }
}

pub(crate) fn write_settings(settings: Settings) -> Result<(), NotWritten> {
    let mut area = [0u8; FIELD_SIZE];
    let put = field_bytes::put_settings(settings, &mut area);
    write(put, &area)
}

// A frame, which has no more than its area.
pub(crate) fn write_frame(
    settings: Settings,
    frame: DrawnFrame,
    bytes: &[u8],
) -> Result<(), NotWritten> {
    let sound = bytes.get(..frame.length as usize).ok_or(NotWritten)?;
    let mut area = [0u8; FIELD_SIZE];
    let put = field_bytes::put_frame(
        settings,
        frame.time,
        frame.channel,
        frame.class,
        sound,
        &mut area,
    );
    write(put, &area)
}

pub(crate) fn write_end(frames: u64) -> Result<(), NotWritten> {
    let mut area = [0u8; FIELD_SIZE];
    let put = field_bytes::put_end(frames as usize, &mut area);
    write(put, &area)
}
