// Frame tables: class and length of the frames of each format, and its step.
ghost use Rattle.std.specs.Prelude.{◌≡◌, ◌<◌, ◌≤◌};
ghost use Rattle.formats.specs.Frames.{step_of, damaged, good_class, length_in, type_of, damage_of, frame_of, coded_numbers};
ghost use Rattle.formats.specs.Room.{InTable};

use crate::amr::{AMR_LENGTHS, AMR_WB_LENGTHS};
use crate::facts;
use crate::facts::FrameTable;

// Frame classes: no data, sound, and a description of silence (SID).
pub const NO_DATA: usize = 0;

pub const SOUND: usize = 1;

pub const SID: usize = 2;

// What the class of a damaged frame has more, and the two such classes.
pub const DAMAGED: usize = 4;

pub const DAMAGED_SOUND: usize = DAMAGED + SOUND;

pub const DAMAGED_SID: usize = DAMAGED + SID;

// The length that marks a reserved code.
const RESERVED: usize = 65535;

// G.719 frame lengths in bytes by length code.
const G719_LENGTHS: [u16; 32] = [
    0, 65535, 65535, 65535, 65535, 65535, 65535, 65535, 80, 90, 100, 110, 120, 130, 140, 150, 160,
    170, 180, 190, 200, 210, 220, 240, 260, 280, 300, 320, 65535, 65535, 65535, 65535,
];

// The bytes of a GSM-HR frame.
pub const GSM_HR_FRAME: usize = 14;

// What a code in a table of contents stands for.
#[derive(Clone, Copy, Debug, PartialEq, Eq)]
pub struct Frame {
    pub class: usize,
    pub length: usize,
}

#[tactic(auto, unfolding(crate::specs::Frames::length_in))]
fn gsm_hr_length(kind: usize) -> usize
    ensures { result ≡ length_in FrameTable.GsmHr kind }
{
    match kind {
        0 | 2 => GSM_HR_FRAME,
        7 => 0,
        _ => RESERVED,
    }
}

// The length of a frame type in a frame table.
fn length_in(table: FrameTable, kind: usize) -> usize
    requires { InTable table kind }
    ensures { result ≡ length_in table kind }
{
    match table {
        FrameTable::G719 => usize::from(G719_LENGTHS[kind]),
        FrameTable::GsmHr => gsm_hr_length(kind),
        FrameTable::Amr => usize::from(AMR_LENGTHS[kind]),
        FrameTable::AmrWb => usize::from(AMR_WB_LENGTHS[kind]),
        FrameTable::Empty => RESERVED,
    }
}

// The frame type of a code: in a graded format it stands above the quality bit.
fn type_of(graded: bool, code: usize) -> usize
    ensures { result ≡ type_of graded code }
{
    if graded { code / 2 } else { code }
}

// What a damaged frame's class has more: in a graded format a frame is damaged where the quality bit is 0.
fn damage_of(graded: bool, code: usize) -> usize
    ensures { (result ≡ damage_of graded code) × (result ≤ damaged) }
{
    if graded && code % 2 == 0 { DAMAGED } else { 0 }
}

// The class of a good frame of a type that has bytes, where `sid` is the type that is a SID.
pub fn good_class(sid: usize, kind: usize) -> usize
    ensures { (result ≡ good_class sid kind) × (result ≤ 2) }
{
    if kind == sid { SID } else { SOUND }
}

// The frame that a code of a format stands for; none where the code is reserved.
pub fn frame_of(format: u8, code: usize) -> Option<Frame>
    ensures { coded_numbers result ≡ coded_numbers (frame_of format code) }
{
    let facts = facts::format_of(format);
    if facts.codes <= code {
        return None;
    }
    let kind = type_of(facts.graded, code);
    let length = length_in(facts.table, kind);
    if length == RESERVED {
        return None;
    }
    if length == 0 {
        return Some(Frame {
            class: NO_DATA,
            length,
        });
    }
    Some(Frame {
        class: damage_of(facts.graded, code) + good_class(facts.sid, kind),
        length,
    })
}

// The ticks of a frame-block.
pub fn step_of(format: u8) -> u32
    ensures { result ≡ step_of format }
{
    facts::format_of(format).step
}
