// Settings: what the caller agreed with the sender.
ghost use Rattle.std.specs.Prelude.{◌≡◌};
ghost use Rattle.rtp.specs.Editions.{current};
ghost use Rattle.rtp.specs.PayloadFormats.{format_number};
ghost use Rattle.rtp.specs.Ranges.{max_channels, in_range};

use crate::payload_format::PayloadFormat;

// The most channels that any format has.
pub const MOST_CHANNELS: u8 = 6;

// The redundancy type that says: no redundancy.
pub const NO_REDUNDANCY: u8 = 128;

// Laid out as C's hsp_settings.
#[repr(C)]
#[derive(Clone, Copy, Debug, PartialEq, Eq, Default)]
pub struct Settings {
    pub format: u8,
    pub channels: u8,
    pub payload_type: u8,
    pub redundancy_type: u8,
}

impl PayloadFormat {
    // The most channels of the format.
    #[tactic(auto, unfolding(crate::specs::Ranges::max_channels))]
    fn max_channels(self) -> u8
        ensures { result ≡ max_channels current (format_number self) }
    {
        match self {
            PayloadFormat::G719 | PayloadFormat::G719Interleaved => MOST_CHANNELS,
            PayloadFormat::GsmHr | PayloadFormat::Amr | PayloadFormat::AmrWb => 1,
        }
    }
}

// The most channels of a format; 0 where there is no such format.
fn max_channels(format: u8) -> u8
    ensures { result ≡ max_channels current format }
{
    match PayloadFormat::try_from(format) {
        Ok(format) => format.max_channels(),
        Err(_) => 0,
    }
}

#[tactic(auto, unfolding(crate::specs::Ranges::in_range))]
pub fn in_range(settings: Settings) -> bool
    ensures { result ≡ in_range current settings }
{
    settings.channels != 0
        && settings.channels <= max_channels(settings.format)
        && settings.payload_type <= 127
        && (settings.redundancy_type == NO_REDUNDANCY
            || settings.redundancy_type <= 127 && settings.redundancy_type != settings.payload_type)
}
