// Why a call was refused.
ghost use Rattle.std.specs.Prelude.{◌≡◌, Ok, Err, MatchResult};
ghost use Rattle.rtp.specs.Faults.{fault, shifted, told};
ghost use Rattle.rtp.specs.Refusals.{number};

#[derive(Clone, Copy, Debug, PartialEq, Eq)]
pub enum Refusal {
    PacketLength,
    Version,
    HeaderTruncated,
    PaddingCount,
    UnknownPayloadType,
    ContentsTruncated,
    ReservedCode,
    NoFrameBlocks,
    TooManyRows,
    LengthMismatch,
    SettingsOutOfRange,
    AreaTooShort,
    Unwritable,
    RowOutsideBytes,
    Malformed,
    CutField,
    MisplacedTag,
    NotAllowed,
    WrongCount,
}

// Why bytes were refused, and where: the offset of the place at fault from the front of what was read, 0 where a refusal has none.
#[derive(Clone, Copy, Debug, PartialEq, Eq)]
pub struct Fault {
    pub refusal: Refusal,
    pub offset: usize,
}

// The paper's refusal number.
impl From<Refusal> for u32 {
    ghost from_gives = { λ refusal n. n ≡ number refusal };

    fn from(refusal: Refusal) -> u32 {
        match refusal {
            Refusal::PacketLength => 1,
            Refusal::Version => 2,
            Refusal::HeaderTruncated => 3,
            Refusal::PaddingCount => 4,
            Refusal::UnknownPayloadType => 5,
            Refusal::ContentsTruncated => 6,
            Refusal::ReservedCode => 7,
            Refusal::NoFrameBlocks => 8,
            Refusal::TooManyRows => 9,
            Refusal::LengthMismatch => 10,
            Refusal::SettingsOutOfRange => 11,
            Refusal::AreaTooShort => 12,
            Refusal::Unwritable => 13,
            Refusal::RowOutsideBytes => 14,
            Refusal::Malformed => 15,
            Refusal::CutField => 17,
            Refusal::MisplacedTag => 18,
            Refusal::NotAllowed => 19,
            Refusal::WrongCount => 20,
        }
    }
}

// A refusal that has no place, or is of what stands at the front.
impl From<Refusal> for Fault {
    ghost from_gives = { λ refusal f. f ≡ fault refusal };

    fn from(refusal: Refusal) -> Fault {
        Fault { refusal, offset: 0 }
    }
}

impl Fault {
    // The fault as seen from so many bytes before. A place past 64 bits, which no packet or log has, is told as the farthest.
    pub fn shifted(self, by: usize) -> Fault
        ensures { result ≡ told (shifted by self) }
    {
        Fault {
            refusal: self.refusal,
            offset: self.offset.saturating_add(by),
        }
    }
}

// What is said of a part that stands so many bytes on, as seen from the front of the whole.
pub fn shifted<T>(answer: Result<T, Fault>, by: usize) -> Result<T, Fault>
    ensures { MatchResult answer (λ x. result ≡ Ok x) (λ fault. result ≡ Err (told (shifted by fault))) }
{
    match answer {
        Ok(value) => Ok(value),
        Err(fault) => Err(fault.shifted(by)),
    }
}
