// A packet read into frame rows.
ghost use Rattle.std.specs.Prelude.{◌≡◌, true, ◌≤◌, length, Ok};
ghost use Rattle.rtp.specs.Editions.{current};
ghost use Rattle.rtp.specs.Sizes.{row_area};
ghost use Rattle.rtp.specs.Areas.{over};
ghost use Rattle.rtp.specs.Ranges.{in_range};
ghost use Rattle.read_headers.specs.Header.{header};
ghost use Rattle.read_payload.specs.Payloads.{rows_answer, rows_words};
ghost use Rattle.read_packet.specs.Readings.{payload_in, typed_rows, reading, reading_numbers, outcome_numbers, outcome_words};

use read_headers::header;
use read_headers::header::Header;
use read_mode_request::requests;
use read_payload::reading;
use read_redundancy::blocks;
use row_tags::tagging::PRIMARY;
use rtp::refusal::{Fault, Refusal};
use rtp::settings::Settings;
use rtp::sizes::ROW_AREA;

// What a packet that was read says of itself: the number of its rows, its header, and its mode request.
#[derive(Clone, Copy, Debug, PartialEq, Eq)]
pub struct Packet {
    pub rows: u32,
    pub marker: u8,
    pub sequence: u16,
    pub timestamp: u32,
    pub source: u32,
    pub mode_request: u8,
}

// The payload of a packet with this header, by the packet's type.
fn read_typed(
    settings: Settings,
    head: Header,
    packet: &[u8],
    rows: &mut [u32],
) -> Result<u32, Fault>
    requires { (in_range current settings ≡ true) × (row_area current ≤ length rows.old) × (header packet.now ≡ Ok head) }
    ensures { (result ≡ rows_answer (typed_rows current settings head (payload_in packet.now head)))
        × (rows.new ≡ over (rows_words (typed_rows current settings head (payload_in packet.now head))) rows.old) }
{
    let start = head.start;
    let end = head.end;
    let place = start as u32;
    if head.payload_type == settings.payload_type {
        return reading::read_payload(
            settings,
            0,
            head.timestamp,
            place,
            PRIMARY,
            &packet[start..end],
            rows,
        );
    }
    if head.payload_type == settings.redundancy_type {
        return blocks::read_redundant(settings, head.timestamp, place, &packet[start..end], rows);
    }
    Err(Fault::from(Refusal::UnknownPayloadType))
}

// The packet's rows at the front of the area, with the row count, the header and the mode request; or a refusal, and the area unchanged.
pub fn read(settings: Settings, packet: &[u8], rows: &mut [u32]) -> Result<Packet, Fault>
    ensures { (reading_numbers result ≡ outcome_numbers (reading current settings (length rows.old) packet.now))
        × (rows.new ≡ over (outcome_words (reading current settings (length rows.old) packet.now)) rows.old) }
{
    if !rtp::settings::in_range(settings) {
        return Err(Fault::from(Refusal::SettingsOutOfRange));
    }
    if rows.len() < ROW_AREA {
        return Err(Fault::from(Refusal::AreaTooShort));
    }
    let head = header::read_header(packet)?;
    let count = read_typed(settings, head, packet, rows)?;
    let start = head.start;
    let end = head.end;
    Ok(Packet {
        rows: count,
        marker: head.marker,
        sequence: head.sequence,
        timestamp: head.timestamp,
        source: head.source,
        mode_request: requests::mode_request(settings, head.payload_type, &packet[start..end]),
    })
}
