// The payload formats, and the numbers that settings name them by.
ghost use Rattle.std.specs.Prelude.{◌≡◌};
ghost use Rattle.rtp.specs.PayloadFormats.{format_number, IsNumbered};

#[derive(Clone, Copy, Debug, PartialEq, Eq)]
pub enum PayloadFormat {
    G719,
    G719Interleaved,
    GsmHr,
    Amr,
    AmrWb,
}

// A number that names no format.
#[derive(Clone, Copy, Debug, PartialEq, Eq)]
pub struct UnknownFormat(pub u8);

impl From<PayloadFormat> for u8 {
    ghost from_gives = { λ format n. n ≡ format_number format };

    fn from(format: PayloadFormat) -> u8 {
        match format {
            PayloadFormat::G719 => 1,
            PayloadFormat::G719Interleaved => 2,
            PayloadFormat::GsmHr => 3,
            PayloadFormat::Amr => 4,
            PayloadFormat::AmrWb => 5,
        }
    }
}

impl TryFrom<u8> for PayloadFormat {
    type Error = UnknownFormat;

    ghost try_from_gives = { IsNumbered };

    fn try_from(number: u8) -> Result<PayloadFormat, UnknownFormat> {
        match number {
            1 => Ok(PayloadFormat::G719),
            2 => Ok(PayloadFormat::G719Interleaved),
            3 => Ok(PayloadFormat::GsmHr),
            4 => Ok(PayloadFormat::Amr),
            5 => Ok(PayloadFormat::AmrWb),
            _ => Err(UnknownFormat(number)),
        }
    }
}
