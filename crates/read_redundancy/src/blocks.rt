// The blocks of a redundancy payload.
ghost use Rattle.std.specs.Prelude.{◌≡◌, true, ◌+◌, ◌≤◌, length};
ghost use Rattle.rtp.specs.Editions.{current};
ghost use Rattle.rtp.specs.Sizes.{row_area, max_packet};
ghost use Rattle.rtp.specs.Areas.{over};
ghost use Rattle.rtp.specs.Ranges.{in_range};
ghost use Rattle.row_tags.specs.Tags.{redundant_mark};
ghost use Rattle.read_payload.specs.Payloads.{payload_numbers, rows_numbers, rows_answer, rows_words};
ghost use Rattle.read_redundancy.specs.Blocks.{redundant_rows, asked_redundant};
ghost use Rattle.read_redundancy.specs.Room.{asked_block, blocks_from, BlocksAsked, BlocksRoom};

use read_headers::redundancy;
use read_headers::redundancy::BlockHeader;
use read_payload::reading;
use row_tags::tagging::{PRIMARY, REDUNDANT};
use rtp::refusal::{Fault, Refusal};
use rtp::settings::Settings;
use rtp::sizes::{MAX_PACKET, ROW_AREA, ROW_WIDTH};
use rtp::{refusal, time};

// What is known of a block from its header: its payload type, how long before the packet's time it stands, and the mark of its rows.
#[derive(Clone, Copy, Debug, PartialEq, Eq)]
struct Header {
    payload_type: u8,
    offset: u32,
    mark: u8,
}

// Where a block stands in its packet: after how many rows, under which timestamp, and at which byte.
#[derive(Clone, Copy, Debug, PartialEq, Eq)]
struct Place {
    done: u32,
    time: u32,
    at: u32,
}

// The rows of one block after `done` rows: none of another type, and none of an empty block.
fn check_block(settings: Settings, done: u32, block_type: u8, s: &[u8]) -> Result<u32, Fault>
    ensures { result ≡ rows_answer (asked_block current redundant_mark settings done (row_area current) 0 block_type 0 0 s.now) }
{
    if block_type == settings.payload_type {
        if s.len() == 0 {
            return Ok(0);
        }
        return reading::check_payload(settings, done, s);
    }
    Ok(0)
}

// The same of a block at this place in the packet, with its rows written at the front of the area.
fn put_block(
    settings: Settings,
    header: Header,
    place: Place,
    s: &[u8],
    rows: &mut [u32],
) -> Result<u32, Fault>
    ensures { (result ≡ rows_answer (asked_block current header.mark settings place.done (length rows.old) place.time header.payload_type header.offset place.at s.now))
        × (rows.new ≡
        over (rows_words (asked_block current header.mark settings place.done (length rows.old) place.time header.payload_type header.offset place.at s.now)) rows.old) }
{
    if header.payload_type == settings.payload_type {
        if s.len() == 0 {
            return Ok(0);
        }
        return reading::read_payload(
            settings,
            place.done,
            time::difference(place.time, header.offset),
            place.at,
            header.mark,
            s,
            rows,
        );
    }
    Ok(0)
}

// The blocks whose headers stand at the front of `headers` and whose bytes are s: how many rows they give after `done` rows, or
// the first refusal.
fn check_blocks(settings: Settings, done: u32, headers: &[u8], s: &[u8]) -> Result<u32, Fault>
    requires { BlocksAsked current settings done 0 headers.now (length s.now) }
    ensures { result ≡ rows_answer (blocks_from current settings done 0 0 headers.now s.now) }
{
    match redundancy::read_block_header(headers)? {
        BlockHeader::Primary(block_type) => check_block(settings, done, block_type, s),
        BlockHeader::Redundant(block) => {
            let length = block.length;
            let here = check_block(settings, done, block.payload_type, &s[..length])?;
            let rest = refusal::shifted(
                check_blocks(settings, done + here, &headers[4..], &s[length..]),
                length,
            )?;
            Ok(here + rest)
        }
    }
}

// The rows of the same blocks, written into the area; s stands at this place in the packet.
fn put_blocks(settings: Settings, place: Place, headers: &[u8], s: &[u8], rows: &mut [u32])
    requires { BlocksRoom current settings place.done place.time place.at headers.now s.now (length rows.old) }
    ensures { rows.new ≡ over (rows_words (blocks_from current settings place.done place.time place.at headers.now s.now)) rows.old }
{
    match redundancy::read_block_header(headers) {
        Err(_) => {}
        Ok(BlockHeader::Primary(block_type)) => {
            let header = Header {
                payload_type: block_type,
                offset: 0,
                mark: PRIMARY,
            };
            let _ = put_block(settings, header, place, s, rows);
        }
        Ok(BlockHeader::Redundant(block)) => {
            let length = block.length;
            let header = Header {
                payload_type: block.payload_type,
                offset: block.offset,
                mark: REDUNDANT,
            };
            if let Ok(here) = put_block(settings, header, place, &s[..length], rows) {
                let width = ROW_WIDTH * (here as usize);
                let next = Place {
                    done: place.done + here,
                    at: place.at + (length as u32),
                    ..place
                };
                put_blocks(
                    settings,
                    next,
                    &headers[4..],
                    &s[length..],
                    &mut rows[width..],
                );
            }
        }
    }
}

// The blocks of a redundancy payload at `at` in its packet: their rows at the front of the area, or a refusal and the area unchanged.
fn read_blocks(
    settings: Settings,
    timestamp: u32,
    at: u32,
    s: &[u8],
    rows: &mut [u32],
) -> Result<u32, Fault>
    requires { (in_range current settings ≡ true) × (row_area current ≤ length rows.old) × (at + length s.now ≤ max_packet) }
    ensures { (result ≡ rows_answer (redundant_rows current settings timestamp at s.now))
        × (rows.new ≡ over (rows_words (redundant_rows current settings timestamp at s.now)) rows.old) }
{
    let sizes = refusal::shifted(redundancy::read_headers(s), at as usize)?;
    let size = sizes.size;
    let front = (at as usize) + size;
    if s.len() - size < sizes.redundant {
        return Err(Fault {
            refusal: Refusal::LengthMismatch,
            offset: front,
        });
    }
    let count = refusal::shifted(check_blocks(settings, 0, s, &s[size..]), front)?;
    let first = Place {
        done: 0,
        time: timestamp,
        at: at + (size as u32),
    };
    put_blocks(settings, first, s, &s[size..], rows);
    Ok(count)
}

// A redundancy payload at `at` in its packet: its rows at the front of the area, or a refusal and the area unchanged.
pub fn read_redundant(
    settings: Settings,
    timestamp: u32,
    at: u32,
    s: &[u8],
    rows: &mut [u32],
) -> Result<u32, Fault>
    ensures { (payload_numbers result ≡ rows_numbers (asked_redundant current settings (length rows.old) timestamp at s.now))
        × (rows.new ≡ over (rows_words (asked_redundant current settings (length rows.old) timestamp at s.now)) rows.old) }
{
    if !rtp::settings::in_range(settings) {
        return Err(Fault::from(Refusal::SettingsOutOfRange));
    }
    if rows.len() < ROW_AREA {
        return Err(Fault::from(Refusal::AreaTooShort));
    }
    if MAX_PACKET < (at as usize) + s.len() {
        return Err(Fault::from(Refusal::PacketLength));
    }
    read_blocks(settings, timestamp, at, s, rows)
}
