// Fields of a log: a one-byte tag, a two-byte length, and so many bytes of content.
ghost use Rattle.std.specs.Prelude.{◌≡◌};
ghost use Rattle.log_fields.specs.Fields.{field_of, field_numbers, frame_fits};

use frame_codes::coding;
use rtp::bytes;
use rtp::settings::Settings;

// The tags of the settings, of a frame and of the end.
pub const SETTINGS_TAG: u8 = 1;

pub const FRAME_TAG: u8 = 2;

pub const END_TAG: u8 = 3;

// The bytes of a tag and a length.
pub const HEAD_SIZE: usize = 3;
// The content of the settings, of a frame before its own bytes, and of the end.
pub const SETTINGS_SIZE: usize = 4;

pub const FRAME_HEAD: usize = 6;

pub const END_SIZE: usize = 4;
// The bytes of the first field, which is the settings.
pub const FIRST_SIZE: usize = HEAD_SIZE + SETTINGS_SIZE;

#[derive(Clone, Copy, Debug, PartialEq, Eq)]
pub struct FieldHead {
    pub tag: u8,
    pub length: u16,
}

// No byte is left; a field of this tag that is cut; a whole field.
#[derive(Clone, Copy, Debug, PartialEq, Eq)]
pub enum Field {
    Stopped,
    Cut(u8),
    Whole(FieldHead),
}

// The field at the front of s.
pub fn field_of(s: &[u8]) -> Field
    ensures { field_numbers result ≡ field_numbers (field_of s.now) }
{
    if s.len() == 0 {
        return Field::Stopped;
    }
    let tag = s[0];
    if s.len() < HEAD_SIZE {
        return Field::Cut(tag);
    }
    let length = bytes::read_u16(s, 1);
    if s.len() < HEAD_SIZE + length as usize {
        return Field::Cut(tag);
    }
    Field::Whole(FieldHead { tag, length })
}

// Whether a frame of this channel, class and length is one that reading under the settings can give, and not of no data.
pub fn frame_fits(settings: Settings, channel: u32, class: u32, n: u32) -> bool
    ensures { result ≡ frame_fits settings channel class n }
{
    channel < settings.channels as u32 && coding::allowed(settings.format, class, n)
}
