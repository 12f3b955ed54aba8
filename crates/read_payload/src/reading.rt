// A payload read into frame rows.
ghost use Rattle.std.specs.Prelude.{◌≡◌, length};
ghost use Rattle.rtp.specs.Editions.{current};
ghost use Rattle.rtp.specs.Sizes.{row_area};
ghost use Rattle.rtp.specs.Areas.{over};
ghost use Rattle.row_tags.specs.Tags.{redundant_mark};
ghost use Rattle.read_payload.specs.Payloads.{request_of, asked_rows, payload_numbers, rows_numbers, rows_words};

use formats::facts;
use read_contents::entries;
use read_rows::rows;
use rtp::refusal::{Fault, Refusal};
use rtp::settings::Settings;
use rtp::sizes::{MAX_PACKET, ROW_AREA, ROW_WIDTH};
use rtp::{refusal, settings};

// The mode request of a payload without one.
pub const NO_REQUEST: u8 = 15;

// Whether a payload can be read after `done` rows of its packet, and how many rows it gives.
pub fn check_payload(asked: Settings, done: u32, s: &[u8]) -> Result<u32, Fault>
    ensures { payload_numbers result ≡ rows_numbers (asked_rows current redundant_mark asked done (row_area current) 0 0 s.now) }
{
    if !settings::in_range(asked) {
        return Err(Fault::from(Refusal::SettingsOutOfRange));
    }
    if MAX_PACKET < s.len() {
        return Err(Fault::from(Refusal::PacketLength));
    }
    let header = facts::format_of(asked.format).header;
    if s.len() < header {
        return Err(Fault::from(Refusal::ContentsTruncated));
    }
    let sizes = refusal::shifted(
        entries::read_contents(asked.format, asked.channels, done, &s[header..]),
        header,
    )?;
    if header + sizes.size + sizes.frames != s.len() {
        return Err(Fault {
            refusal: Refusal::LengthMismatch,
            offset: header + sizes.size,
        });
    }
    Ok(sizes.rows as u32)
}

// The payload s, which stands at `at` in its packet and after `done` of its rows and is heard with this mark: its rows at the front of the area, or a
// refusal and the area unchanged.
pub fn read_payload(
    asked: Settings,
    done: u32,
    time: u32,
    at: u32,
    mark: u8,
    s: &[u8],
    area: &mut [u32],
) -> Result<u32, Fault>
    ensures { (payload_numbers result ≡ rows_numbers (asked_rows current mark asked done (length area.old) time at s.now))
        × (area.new ≡ over (rows_words (asked_rows current mark asked done (length area.old) time at s.now)) area.old) }
{
    if !settings::in_range(asked) {
        return Err(Fault::from(Refusal::SettingsOutOfRange));
    }
    if ROW_WIDTH * (done as usize) + area.len() < ROW_AREA {
        return Err(Fault::from(Refusal::AreaTooShort));
    }
    if MAX_PACKET < (at as usize) + s.len() {
        return Err(Fault::from(Refusal::PacketLength));
    }
    let header = facts::format_of(asked.format).header;
    if s.len() < header {
        return Err(Fault {
            refusal: Refusal::ContentsTruncated,
            offset: at as usize,
        });
    }
    let sizes = refusal::shifted(
        rows::put_table(
            area,
            mark,
            &s[header..],
            asked.format,
            asked.channels,
            done,
            time,
            at + (header as u32),
        ),
        (at as usize) + header,
    )?;
    Ok(sizes.rows as u32)
}

// The mode request in the payload's header.
pub fn mode_request(format: u8, s: &[u8]) -> u8
    ensures { result ≡ request_of format s.now }
{
    if facts::format_of(format).header == 0 {
        return NO_REQUEST;
    }
    if s.len() == 0 {
        return 0;
    }
    s[0] / 16
}
