// The codes of AMR and AMR-WB (RFC 4867), found by length.
ghost use Rattle.std.specs.Prelude.{◌≡◌, get_or};
ghost use Rattle.formats.specs.Formats.{amr_format, amr_wb_format};
ghost use Rattle.frame_codes.specs.Codes.{no_type, code_or_none, graded_code, highest_code, length_bits, has_length, sound_bits};

use formats::facts::{AMR_SID, AMR_WB_SID, FrameTable};
use formats::frames;
use formats::frames::DAMAGED;

// No type: a length that the format has not. And the highest type that is no data.
const NO_TYPE: u8 = 16;

const NO_DATA_TYPE: u8 = 15;

// The highest type of each length, 16 where there is none.
const AMR_TYPES: [u8; 32] = [
    15, 16, 16, 16, 16, 8, 16, 16, 16, 16, 16, 16, 0, 1, 16, 2, 16, 3, 16, 4, 5, 16, 16, 16, 16,
    16, 6, 16, 16, 16, 16, 7,
];

const AMR_WB_TYPES: [u8; 61] = [
    15, 16, 16, 16, 16, 9, 16, 16, 16, 16, 16, 16, 16, 16, 16, 16, 16, 0, 16, 16, 16, 16, 16, 1,
    16, 16, 16, 16, 16, 16, 16, 16, 2, 16, 16, 16, 3, 16, 16, 16, 4, 16, 16, 16, 16, 16, 5, 16, 16,
    16, 6, 16, 16, 16, 16, 16, 16, 16, 7, 16, 8,
];

// The code of a frame type and a class: the type above the quality bit, which no data has set.
fn graded_code(sid: usize, kind: u8, class: u32) -> Option<u32>
    ensures { code_or_none result ≡ graded_code sid kind class }
{
    if kind == NO_TYPE {
        return None;
    }
    if kind == NO_DATA_TYPE {
        return if class == 0 { Some(31) } else { None };
    }
    let good = frames::good_class(sid, usize::from(kind)) as u32;
    if class == good {
        return Some(2 * u32::from(kind) + 1);
    }
    if class == good + (DAMAGED as u32) {
        return Some(2 * u32::from(kind));
    }
    None
}

// The code of a class and a length, which is that of one type at most; `types` has the highest type of each length.
fn code_by_length(types: &[u8], sid: usize, class: u32, n: u32) -> Option<u32>
    ensures { code_or_none result ≡ graded_code sid (get_or types.now n no_type) class }
{
    match types.get(n as usize) {
        Some(kind) => graded_code(sid, *kind, class),
        None => None,
    }
}

pub(crate) fn amr_code(class: u32, n: u32) -> Option<u32>
    ensures { code_or_none result ≡ highest_code amr_format class n }
{
    code_by_length(&AMR_TYPES, AMR_SID, class, n)
}

pub(crate) fn amr_wb_code(class: u32, n: u32) -> Option<u32>
    ensures { code_or_none result ≡ highest_code amr_wb_format class n }
{
    code_by_length(&AMR_WB_TYPES, AMR_WB_SID, class, n)
}

// The lengths of a class as the bits of a word, so that a frame is asked for without a table.

// .. of sound.
const AMR_SOUND: u64 = 0x841ab000;

const AMR_WB_SOUND: u64 = 0x1404411100820000;

// .. of no data and of a SID.
const NO_DATA_BITS: u64 = 1;

const SID_BITS: u64 = 32;

fn length_bits(sounds: u64, class: u32) -> u64
    ensures { result ≡ length_bits sounds class }
{
    if class == 0 {
        return NO_DATA_BITS;
    }
    if 8 <= class {
        return 0;
    }
    if class % 4 == 1 {
        return sounds;
    }
    if class % 4 == 2 {
        return SID_BITS;
    }
    0
}

#[tactic(auto, unfolding(crate::specs::Codes::has_length))]
pub(crate) fn has_length(sounds: u64, class: u32, n: u32) -> bool
    ensures { result ≡ has_length sounds class n }
{
    n < 64 && (length_bits(sounds, class) >> n) % 2 == 1
}

// The word of sound of a table, 0 where it is not that of AMR or AMR-WB.
pub(crate) fn sounds_of(table: FrameTable) -> u64
    ensures { result ≡ sound_bits table }
{
    match table {
        FrameTable::Amr => AMR_SOUND,
        FrameTable::AmrWb => AMR_WB_SOUND,
        FrameTable::G719 => 0,
        FrameTable::GsmHr => 0,
        FrameTable::Empty => 0,
    }
}
