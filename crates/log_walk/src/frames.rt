// The field at the front of what is left of a log, behind its settings.
ghost use Rattle.std.specs.Prelude.{◌≡◌, ◌+◌, ◌≤◌, length};
ghost use Rattle.log_fields.specs.Fields.{head_size};
ghost use Rattle.log_walk.specs.Stepping.{frame_field, end_field, next_field};

use log_fields::fields;
use log_fields::fields::{
    END_SIZE, END_TAG, FRAME_HEAD, FRAME_TAG, Field, HEAD_SIZE, SETTINGS_TAG,
};
use rtp::bytes;
use rtp::refusal::{Fault, Refusal};
use rtp::settings::Settings;

// A frame as a part of the log: its time, channel and class, where its bytes start and how many they are.
#[derive(Clone, Copy, Debug, PartialEq, Eq)]
pub struct Shown {
    pub time: u32,
    pub channel: u8,
    pub class: u8,
    pub start: usize,
    pub length: usize,
}

// A frame, the end, or a field passed over by so many bytes.
#[derive(Clone, Copy, Debug, PartialEq, Eq)]
pub enum Next {
    Frame(Shown),
    End,
    Pass(usize),
}

// A whole frame's field with n bytes of content.
fn frame_field(settings: Settings, n: u16, s: &[u8]) -> Result<Next, Fault>
    requires { head_size + n ≤ length s.now }
    ensures { result ≡ frame_field settings n s.now }
{
    let content = n as usize;
    if content < FRAME_HEAD {
        return Err(Refusal::NotAllowed.into());
    }
    let channel = s[7];
    let class = s[8];
    let size = content - FRAME_HEAD;
    if fields::frame_fits(settings, channel as u32, class as u32, size as u32) {
        return Ok(Next::Frame(Shown {
            time: bytes::read_u32(s, HEAD_SIZE),
            channel,
            class,
            start: HEAD_SIZE + FRAME_HEAD,
            length: size,
        }));
    }
    Err(Refusal::NotAllowed.into())
}

// A whole end's field with n bytes of content, after so many frames.
fn end_field(count: usize, n: u16, s: &[u8]) -> Result<Next, Fault>
    requires { head_size + n ≤ length s.now }
    ensures { result ≡ end_field count n s.now }
{
    if n as usize != END_SIZE {
        return Err(Refusal::NotAllowed.into());
    }
    if bytes::read_u32(s, HEAD_SIZE) as usize != count {
        return Err(Refusal::WrongCount.into());
    }
    if s.len() == HEAD_SIZE + END_SIZE {
        return Ok(Next::End);
    }
    Err(Fault {
        refusal: Refusal::MisplacedTag,
        offset: HEAD_SIZE + END_SIZE,
    })
}

// What the field at the front of s comes to, after so many frames.
pub(crate) fn next_field(settings: Settings, count: usize, s: &[u8]) -> Result<Next, Fault>
    ensures { result ≡ next_field settings count s.now }
{
    match fields::field_of(s) {
        Field::Stopped => Err(Refusal::MisplacedTag.into()),
        Field::Cut(SETTINGS_TAG) => Err(Refusal::MisplacedTag.into()),
        Field::Cut(_) => Err(Refusal::CutField.into()),
        Field::Whole(head) => match head.tag {
            SETTINGS_TAG => Err(Refusal::MisplacedTag.into()),
            FRAME_TAG => frame_field(settings, head.length, s),
            END_TAG => end_field(count, head.length, s),
            _ => Ok(Next::Pass(HEAD_SIZE + head.length as usize)),
        },
    }
}
