// Mode requests: which can be asked for, and their byte in a payload.
ghost use Rattle.std.specs.Prelude.{◌≡◌, ◌%◌};
ghost use Rattle.rtp.specs.Editions.{current};
ghost use Rattle.rtp.specs.Areas.{fitted};
ghost use Rattle.formats.specs.Formats.{format_of};
ghost use Rattle.write_sizes.specs.Asking.{askable, request_bytes};

use formats::facts;
use rtp::settings;
use rtp::settings::Settings;

// The largest mode request.
pub const MAX_REQUEST: u8 = 15;

// Whether the settings and the mode request that a writer is asked with are in range.
pub fn in_range(asked: Settings, mode_request: u8) -> bool
    ensures { result ≡ askable current asked mode_request }
{
    mode_request <= MAX_REQUEST && settings::in_range(asked)
}

// The mode request's four bits where the format has one and there is room; answers the bytes before the table.
pub fn put_request(format: u8, mode_request: u8, out: &mut [u8]) -> usize
    ensures { (result ≡ (format_of format).header) × (out.new ≡ fitted (request_bytes format (mode_request % 16)) out.old) }
{
    let header = facts::format_of(format).header;
    if header == 0 {
        return 0;
    }
    if out.len() < header {
        return header;
    }
    out[0] = 16 * (mode_request % 16);
    header
}
