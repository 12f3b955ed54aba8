// What each format is. No other module tests a format's number.
ghost use Rattle.std.specs.Prelude.{◌≡◌};
ghost use Rattle.rtp.specs.PayloadFormats.{format_number};
ghost use Rattle.formats.specs.Formats.{g719_format, graded_format, format_of};

use rtp::payload_format::PayloadFormat;

// The frame tables; an empty one has reserved codes only.
#[derive(Clone, Copy, Debug, PartialEq, Eq)]
pub enum FrameTable {
    G719,
    GsmHr,
    Amr,
    AmrWb,
    Empty,
}

// The bytes before the table of contents; the ticks of a frame-block; the weight of the code's lowest bit in an entry's first byte, and the number of codes; whether an entry's second byte
// counts frame-blocks, which then join in runs, or it is one frame-block; whether it has a displacement for each frame-block; whether the code's lowest bit is a quality bit below the frame
// type, or the code is the type; the type that is a SID.
#[derive(Clone, Copy, Debug, PartialEq, Eq)]
pub struct Format {
    pub header: usize,
    pub step: u32,
    pub unit: usize,
    pub codes: usize,
    pub counted: bool,
    pub displaced: bool,
    pub graded: bool,
    pub sid: usize,
    pub table: FrameTable,
}

// No type of a format is a SID.
const NO_SID: usize = 32;

// The types of AMR and AMR-WB that are SIDs.
pub const AMR_SID: usize = 8;

pub const AMR_WB_SID: usize = 9;

// A code of 5 bits: two reserved bits lie below it.
const FIVE_BIT_UNIT: usize = 4;

const FIVE_BIT_CODES: usize = 32;

fn g719_format(displaced: bool) -> Format
    ensures { result ≡ g719_format displaced }
{
    Format {
        header: 0,
        step: 960,
        unit: FIVE_BIT_UNIT,
        codes: FIVE_BIT_CODES,
        counted: true,
        displaced,
        graded: false,
        sid: NO_SID,
        table: FrameTable::G719,
    }
}

// AMR and AMR-WB.
fn graded_format(step: u32, sid: usize, table: FrameTable) -> Format
    ensures { result ≡ graded_format step sid table }
{
    Format {
        header: 1,
        step,
        unit: FIVE_BIT_UNIT,
        codes: FIVE_BIT_CODES,
        counted: false,
        displaced: false,
        graded: true,
        sid,
        table,
    }
}

// What a format is.
#[tactic(auto, unfolding(crate::specs::Formats::format_of))]
fn known_format(format: PayloadFormat) -> Format
    ensures { result ≡ format_of (format_number format) }
{
    match format {
        PayloadFormat::G719 => g719_format(false),
        PayloadFormat::G719Interleaved => g719_format(true),
        PayloadFormat::GsmHr => Format {
            header: 0,
            step: 160,
            unit: 16,
            codes: 8,
            counted: false,
            displaced: false,
            graded: false,
            sid: 2,
            table: FrameTable::GsmHr,
        },
        PayloadFormat::Amr => graded_format(160, AMR_SID, FrameTable::Amr),
        PayloadFormat::AmrWb => graded_format(320, AMR_WB_SID, FrameTable::AmrWb),
    }
}

// The format of a number. What is no format has no frames.
pub fn format_of(format: u8) -> Format
    ensures { result ≡ format_of format }
{
    match PayloadFormat::try_from(format) {
        Ok(format) => known_format(format),
        Err(_) => Format {
            header: 0,
            step: 1,
            unit: 128,
            codes: 1,
            counted: false,
            displaced: false,
            graded: false,
            sid: NO_SID,
            table: FrameTable::Empty,
        },
    }
}
