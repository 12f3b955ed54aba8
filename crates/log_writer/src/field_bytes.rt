// The fields of a log, written over the front of an area.
ghost use Rattle.std.specs.Prelude.{◌≡◌, ◌∷◌, ◌≤◌, length};
ghost use Rattle.rtp.specs.Editions.{current};
ghost use Rattle.rtp.specs.Areas.{over};
ghost use Rattle.rtp.specs.Numbers.{two};
ghost use Rattle.log_fields.specs.Fields.{head_size, first_size};
ghost use Rattle.log_writer.specs.FieldBytes.{settings_bytes, frame_bytes, end_bytes, settings_put, frame_put, end_put, written_numbers, put_numbers, put_bytes};
ghost use Rattle.log_writer.specs.Room.{last_size, FieldRoom};

use log_fields::fields;
use log_fields::fields::{
    END_SIZE, END_TAG, FIRST_SIZE, FRAME_HEAD, FRAME_TAG, HEAD_SIZE, SETTINGS_SIZE, SETTINGS_TAG,
};
use rtp::refusal::Refusal;
use rtp::settings::Settings;
use rtp::sizes::MAX_FRAME;
use rtp::{bytes, settings};

// The most frames of a log.
pub const MAX_FRAMES: usize = 0xffff_ffff;

// The bytes of a frame's field before the frame, and of the last field.
pub(crate) const FRAME_START: usize = HEAD_SIZE + FRAME_HEAD;

pub(crate) const LAST_SIZE: usize = HEAD_SIZE + END_SIZE;

// A field's tag and length.
fn lay_head(tag: u8, size: u16, out: &mut [u8])
    requires { head_size ≤ length out.old }
    ensures { out.new ≡ over (tag ∷ two size) out.old }
{
    out[0] = tag;
    bytes::put_u16(&mut out[1..], size);
}

// The field of the settings.
pub(crate) fn lay_settings(asked: Settings, out: &mut [u8])
    requires { first_size ≤ length out.old }
    ensures { out.new ≡ over (settings_bytes asked) out.old }
{
    lay_head(SETTINGS_TAG, SETTINGS_SIZE as u16, out);
    out[3] = asked.format;
    out[4] = asked.channels;
    out[5] = asked.payload_type;
    out[6] = asked.redundancy_type;
}

// The field of a frame.
pub(crate) fn lay_frame(time: u32, channel: u8, class: u8, frame: &[u8], out: &mut [u8])
    requires { FieldRoom (length frame.now) (length out.old) }
    ensures { out.new ≡ over (frame_bytes time channel class frame.now) out.old }
{
    lay_head(FRAME_TAG, (FRAME_HEAD + frame.len()) as u16, out);
    bytes::put_u32(&mut out[HEAD_SIZE..], time);
    out[7] = channel;
    out[8] = class;
    bytes::put_bytes(&mut out[FRAME_START..], frame);
}

// The field of the end, after so many frames.
pub(crate) fn lay_end(count: u32, out: &mut [u8])
    requires { last_size ≤ length out.old }
    ensures { out.new ≡ over (end_bytes count) out.old }
{
    lay_head(END_TAG, END_SIZE as u16, out);
    bytes::put_u32(&mut out[HEAD_SIZE..], count);
}

// The first field of a log: the number of bytes written, or why there are none.
pub fn put_settings(asked: Settings, out: &mut [u8]) -> Result<usize, Refusal>
    ensures { (written_numbers result ≡ put_numbers (settings_put current asked (length out.old)))
        × (out.new ≡ over (put_bytes (settings_put current asked (length out.old))) out.old) }
{
    if !settings::in_range(asked) {
        return Err(Refusal::SettingsOutOfRange);
    }
    if out.len() < FIRST_SIZE {
        return Err(Refusal::AreaTooShort);
    }
    lay_settings(asked, out);
    Ok(FIRST_SIZE)
}

// The field of a frame that the settings allow.
pub fn put_frame(
    asked: Settings,
    time: u32,
    channel: u32,
    class: u32,
    frame: &[u8],
    out: &mut [u8],
) -> Result<usize, Refusal>
    ensures { (written_numbers result ≡ put_numbers (frame_put current asked time channel class frame.now (length out.old)))
        × (out.new ≡ over (put_bytes (frame_put current asked time channel class frame.now (length out.old))) out.old) }
{
    if !settings::in_range(asked) {
        return Err(Refusal::SettingsOutOfRange);
    }
    if MAX_FRAME < frame.len() {
        return Err(Refusal::NotAllowed);
    }
    if !fields::frame_fits(asked, channel, class, frame.len() as u32) {
        return Err(Refusal::NotAllowed);
    }
    let size = FRAME_START + frame.len();
    if out.len() < size {
        return Err(Refusal::AreaTooShort);
    }
    lay_frame(time, channel as u8, class as u8, frame, out);
    Ok(size)
}

// The last field of a log of so many frames.
pub fn put_end(count: usize, out: &mut [u8]) -> Result<usize, Refusal>
    ensures { (written_numbers result ≡ put_numbers (end_put count (length out.old)))
        × (out.new ≡ over (put_bytes (end_put count (length out.old))) out.old) }
{
    if MAX_FRAMES < count {
        return Err(Refusal::NotAllowed);
    }
    if out.len() < LAST_SIZE {
        return Err(Refusal::AreaTooShort);
    }
    lay_end(count as u32, out);
    Ok(LAST_SIZE)
}
