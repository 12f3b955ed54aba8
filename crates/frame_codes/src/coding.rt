// Frame codes for writing, and which frames a format allows.
ghost use Rattle.std.specs.Prelude.{◌≡◌, false, ltb};
ghost use Rattle.formats.specs.Formats.{g719_format, gsm_format};
ghost use Rattle.formats.specs.Frames.{sound};
ghost use Rattle.frame_codes.specs.Codes.{no_code, code_or_none, highest_code, table_code, code_for};
ghost use Rattle.frame_codes.specs.Allowed.{allowed_in, allowed};

use crate::amr_codes;
use formats::facts;
use formats::facts::FrameTable;
use formats::frames::{GSM_HR_FRAME, NO_DATA};
use rtp::sizes::MAX_FRAME;

// No code: a class and a length that the format has not.
pub const NO_CODE: u32 = 32;

// The bytes of the longest frame of G.719, and of every frame of GSM-HR.
const LONGEST: u32 = MAX_FRAME as u32;

const GSM_HR_LENGTH: u32 = GSM_HR_FRAME as u32;

// Whether sound of G.719 has this length: from 80 bytes in tens, from 240 in twenties.
fn is_length(n: u32) -> bool
    ensures { result ≡ ltb (highest_code (g719_format false) sound n) no_code }
{
    if n <= 220 {
        80 <= n && n % 10 == 0
    } else {
        n <= LONGEST && n % 20 == 0
    }
}

// Its code.
fn length_code(n: u32) -> Option<u32>
    ensures { code_or_none result ≡ highest_code (g719_format false) sound n }
{
    if !is_length(n) {
        None
    } else if n <= 220 {
        Some(n / 10)
    } else {
        Some(n / 20 + 11)
    }
}

fn g719_code(class: u32, n: u32) -> Option<u32>
    ensures { code_or_none result ≡ highest_code (g719_format false) class n }
{
    match (class, n) {
        (0, 0) => Some(0),
        (1, _) => length_code(n),
        _ => None,
    }
}

fn gsm_hr_code(class: u32, n: u32) -> Option<u32>
    ensures { code_or_none result ≡ highest_code gsm_format class n }
{
    match (class, n) {
        (0, 0) => Some(7),
        (1, GSM_HR_LENGTH) => Some(0),
        (2, GSM_HR_LENGTH) => Some(2),
        _ => None,
    }
}

// The code of a class and a length in a frame table.
fn table_code(table: FrameTable, class: u32, n: u32) -> Option<u32>
    ensures { code_or_none result ≡ table_code table class n }
{
    match table {
        FrameTable::G719 => g719_code(class, n),
        FrameTable::GsmHr => gsm_hr_code(class, n),
        FrameTable::Amr => amr_codes::amr_code(class, n),
        FrameTable::AmrWb => amr_codes::amr_wb_code(class, n),
        FrameTable::Empty => None,
    }
}

// .. in a format.
pub fn code_for(format: u8, class: u32, n: u32) -> u32
    ensures { result ≡ code_for format class n }
{
    let table = facts::format_of(format).table;
    match table_code(table, class, n) {
        Some(code) => code,
        None => NO_CODE,
    }
}

fn has_g719(class: u32, n: u32) -> bool
    ensures { result ≡ ltb (highest_code (g719_format false) class n) no_code }
{
    if class == 0 {
        n == 0
    } else {
        class == 1 && is_length(n)
    }
}

fn has_gsm_hr(class: u32, n: u32) -> bool
    ensures { result ≡ ltb (highest_code gsm_format class n) no_code }
{
    if class == 0 {
        n == 0
    } else {
        n == GSM_HR_LENGTH && class <= 2
    }
}

// Whether a class and a length have a code in a frame table. It is asked of each held entry, so it finds none, and asks both tables of AMR
// at one place: it stays small enough for the compiler to inline it.
pub fn table_has(table: FrameTable, class: u32, n: u32) -> bool
    ensures { result ≡ ltb (table_code table class n) no_code }
{
    let sounds = amr_codes::sounds_of(table);
    if 0 < sounds {
        return amr_codes::has_length(sounds, class, n);
    }
    match table {
        FrameTable::G719 => has_g719(class, n),
        FrameTable::GsmHr => has_gsm_hr(class, n),
        FrameTable::Amr => false,
        FrameTable::AmrWb => false,
        FrameTable::Empty => false,
    }
}

// Whether a class and a length have a code.
pub fn has_code(format: u8, class: u32, n: u32) -> bool
    ensures { result ≡ ltb (code_for format class n) no_code }
{
    let table = facts::format_of(format).table;
    table_has(table, class, n)
}

// Whether reading under a format with this frame table can give a frame of this class and length.
pub fn is_allowed(table: FrameTable, class: u32, length: u32) -> bool
    ensures { result ≡ allowed_in table class length }
{
    class != (NO_DATA as u32) && table_has(table, class, length)
}

// .. under a format.
pub fn allowed(format: u8, class: u32, length: u32) -> bool
    ensures { result ≡ allowed format class length }
{
    let table = facts::format_of(format).table;
    is_allowed(table, class, length)
}
