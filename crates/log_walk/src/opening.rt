// A log is opened by its first field.
ghost use Rattle.std.specs.Prelude.{◌≡◌, ◌+◌, ◌≤◌, length};
ghost use Rattle.rtp.specs.Editions.{current};
ghost use Rattle.log_fields.specs.Fields.{head_size, first_size, settings_in};
ghost use Rattle.log_walk.specs.Opening.{settings_field, opening, open_numbers, open_call};

use log_fields::fields;
use log_fields::fields::{FIRST_SIZE, Field, SETTINGS_SIZE, SETTINGS_TAG};
use rtp::refusal::Refusal;
use rtp::settings;
use rtp::settings::Settings;

// What the log reader's record keeps beside the log: settings, the place of the next field, and the number of frames shown.
#[repr(C)]
#[derive(Clone, Copy, Debug, Default, PartialEq, Eq)]
pub struct Cursor {
    pub settings: Settings,
    pub place: usize,
    pub count: usize,
}

// What a call answers, and the record that it leaves.
#[derive(Clone, Copy, Debug, PartialEq, Eq)]
pub struct Answered<A> {
    pub answer: A,
    pub cursor: Cursor,
}

// The settings in the content of the field at the front of s.
fn settings_in(s: &[u8]) -> Settings
    requires { first_size ≤ length s.now }
    ensures { result ≡ settings_in s.now }
{
    Settings {
        format: s[3],
        channels: s[4],
        payload_type: s[5],
        redundancy_type: s[6],
    }
}

// A whole field with the settings' tag and so many bytes of content.
fn settings_field(s: &[u8], n: u16) -> Result<Settings, Refusal>
    requires { head_size + n ≤ length s.now }
    ensures { result ≡ settings_field current s.now n }
{
    if n as usize != SETTINGS_SIZE {
        return Err(Refusal::NotAllowed);
    }
    let found = settings_in(s);
    if settings::in_range(found) {
        return Ok(found);
    }
    Err(Refusal::NotAllowed)
}

// What the first field comes to.
fn first_field(s: &[u8]) -> Result<Settings, Refusal>
    ensures { result ≡ opening current s.now }
{
    match fields::field_of(s) {
        Field::Stopped => Err(Refusal::MisplacedTag),
        Field::Cut(tag) => {
            if tag == SETTINGS_TAG {
                return Err(Refusal::CutField);
            }
            Err(Refusal::MisplacedTag)
        }
        Field::Whole(head) => {
            if head.tag == SETTINGS_TAG {
                return settings_field(s, head.length);
            }
            Err(Refusal::MisplacedTag)
        }
    }
}

// Opens a log: the record behind its settings, or a refusal and a record of zeros.
pub fn open(log: &[u8]) -> Answered<Result<Settings, Refusal>>
    ensures { record { answer = open_numbers result.answer; cursor = result.cursor } ≡ open_call current log.now }
{
    match first_field(log) {
        Ok(settings) => Answered {
            answer: Ok(settings),
            cursor: Cursor {
                settings,
                place: FIRST_SIZE,
                count: 0,
            },
        },
        Err(refusal) => Answered {
            answer: Err(refusal),
            cursor: Cursor::default(),
        },
    }
}
