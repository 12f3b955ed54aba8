// Packets, written.
ghost use Rattle.std.specs.Prelude.{◌≡◌, length};
ghost use Rattle.rtp.specs.Editions.{current};
ghost use Rattle.rtp.specs.Areas.{over};
ghost use Rattle.write_plan.specs.Lists.{rows_in};
ghost use Rattle.write_payload.specs.Writings.{encoded_numbers, encoded_bytes};
ghost use Rattle.write_sizes.specs.Measures.{written_numbers};
ghost use Rattle.write_parts.specs.Parts.{parts};
ghost use Rattle.write_packet.specs.Packets.{assembled_from, sending};
ghost use Rattle.write_packet.specs.Room.{list_bytes, lists_payloads, list_header, lists_headers, over_from, ListRoom, BlockRoom, BlocksRoom, PacketRoom};

use rtp::refusal::Refusal;
use rtp::settings::Settings;
use rtp::sizes::MIN_PACKET;
use write_parts::headers::Heading;
use write_parts::{headers, sizes};
use write_payload::writing;
use write_plan::lists;
use write_sizes::asking;

// What all lists of a packet are written by: the settings, the mode request, the packet's time, and the bytes that the rows point into.
#[derive(Clone, Copy)]
struct Sent<'a> {
    asked: Settings,
    mode_request: u8,
    time: u32,
    bytes: &'a [u8],
}

impl Sent<'_> {
    // A list's payload; answers its bytes.
    fn put_list(&self, rows: &[u32], out: &mut [u8]) -> usize
        requires { ListRoom current self.now.asked self.now.mode_request self.now.bytes.now rows.now (length out.old) }
        ensures { let given = self.now in (result ≡ length (list_bytes current given.asked given.mode_request given.bytes.now rows.now))
            × (out.new ≡ over (list_bytes current given.asked given.mode_request given.bytes.now rows.now) out.old) }
    {
        let written = writing::write_payload(self.asked, self.mode_request, rows, self.bytes, out);
        written.unwrap_or(0)
    }

    // A redundant list: its block header at the front of the area, its payload at `start`; answers the payload's bytes.
    fn put_block(&self, rows: &[u32], start: usize, out: &mut [u8]) -> usize
        requires { BlockRoom current self.now.asked self.now.mode_request self.now.time self.now.bytes.now rows.now start (length out.old) }
        ensures { let given = self.now in (result ≡ length (list_bytes current given.asked given.mode_request given.bytes.now rows.now))
            × (out.new ≡ over (list_header current given.asked given.mode_request given.time given.bytes.now rows.now)
            (over_from start (list_bytes current given.asked given.mode_request given.bytes.now rows.now) out.old)) }
    {
        let size = self.put_list(rows, &mut out[start..]);
        let offset = sizes::offset_of(self.time, rows);
        headers::put_block_header(out, self.asked.payload_type, offset, size);
        size
    }

    // The lists: their block headers at the front of the area, the primary one's last, and their payloads at `start`, one after another.
    fn put_blocks(&self, counts: &[u32], rows: &[u32], start: usize, out: &mut [u8])
        requires { BlocksRoom current self.now.asked self.now.mode_request self.now.time self.now.bytes.now counts.now rows.now start (length out.old) }
        ensures { let given = self.now in out.new ≡
            over (lists_headers current given.asked given.mode_request given.time given.bytes.now counts.now rows.now)
            (over_from start (lists_payloads current given.asked given.mode_request given.bytes.now counts.now rows.now) out.old) }
    {
        if counts.len() < 2 {
            self.put_list(rows, &mut out[start..]);
            out[0] = self.asked.payload_type;
            return;
        }
        let n = sizes::first_words(counts, rows);
        let size = self.put_block(&rows[..n], start, out);
        self.put_blocks(&counts[1..], &rows[n..], start - 4 + size, &mut out[4..]);
    }

    // A packet of the lists, the last of which stands at its time.
    fn put_packet(&self, heading: Heading, counts: &[u32], rows: &[u32], out: &mut [u8])
        requires { PacketRoom current self.now.asked self.now.mode_request heading self.now.time self.now.bytes.now counts.now rows.now
            (length out.old) }
        ensures { let given = self.now in out.new ≡
            over (encoded_bytes (assembled_from given.asked heading given.time
            (parts current given.asked given.mode_request given.bytes.now given.time counts.now (rows_in rows.now)))) out.old }
    {
        let asked = self.asked;
        if counts.len() < 2 {
            headers::put_header(out, heading, asked.payload_type, self.time);
            self.put_list(rows, &mut out[MIN_PACKET..]);
            return;
        }
        headers::put_header(out, heading, asked.redundancy_type, self.time);
        let start = 1 + 4 * (counts.len() - 1);
        self.put_blocks(counts, rows, start, &mut out[MIN_PACKET..]);
    }
}

// The packet of the counted lists, whose rows point into `bytes`, over the front of the area; or a refusal and the area unchanged.
pub fn write_packet(
    asked: Settings,
    mode_request: u8,
    marker: u8,
    sequence: u16,
    source: u32,
    counts: &[u32],
    rows: &[u32],
    bytes: &[u8],
    out: &mut [u8],
) -> Result<usize, Refusal>
    ensures { (written_numbers result ≡
        encoded_numbers (sending current asked mode_request (record { marker = marker; sequence = sequence; source = source }) counts.now rows.now
        bytes.now (length out.old)))
        × (out.new ≡ over
        (encoded_bytes (sending current asked mode_request (record { marker = marker; sequence = sequence; source = source }) counts.now rows.now
        bytes.now (length out.old))) out.old) }
{
    if !asking::in_range(asked, mode_request) {
        return Err(Refusal::SettingsOutOfRange);
    }
    if lists::any_outside(rows, bytes.len()) {
        return Err(Refusal::RowOutsideBytes);
    }
    if !sizes::counts_fit(counts, rows) {
        return Err(Refusal::Unwritable);
    }
    let time = sizes::primary_time(counts, rows);
    let Ok(size) = sizes::packet_size(asked, time, counts, rows) else {
        return Err(Refusal::Unwritable);
    };
    if out.len() < size {
        return Err(Refusal::AreaTooShort);
    }
    let heading = Heading {
        marker,
        sequence,
        source,
    };
    let sent = Sent {
        asked,
        mode_request,
        time,
        bytes,
    };
    sent.put_packet(heading, counts, rows, out);
    Ok(size)
}
