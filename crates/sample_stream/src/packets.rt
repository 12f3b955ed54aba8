// The packets of the stream, as they were sent.
use crate::frames;
use read_payload::reading::NO_REQUEST;
use rtp::payload_format::PayloadFormat;
use rtp::settings::Settings;
use write_packet::packets;

// The sequence number of packet 0, by which packet 36 has number 0; and the source.
const FIRST_SEQUENCE: u16 = 65500;

const SOURCE: u32 = 2712847316;

fn agreed() -> Settings {
    Settings {
        format: u8::from(PayloadFormat::G719Interleaved),
        channels: 1,
        payload_type: 97,
        redundancy_type: 121,
    }
}

fn write_lists(k: u8, counts: &[u32], rows: &[u32], out: &mut [u8]) -> usize {
    let bytes = frames::sound(k);
    let sequence = FIRST_SEQUENCE.wrapping_add(k as u16);
    packets::write_packet(
        agreed(),
        NO_REQUEST,
        0,
        sequence,
        SOURCE,
        counts,
        rows,
        &bytes,
        out,
    )
    .unwrap_or(0)
}

// Packet k to the front of the area: its own list, and from packet 1 on the list of the packet before as a redundant one. Answers its bytes.
pub(crate) fn write(k: u8, out: &mut [u8]) -> usize {
    let rows = frames::rows(k);
    if k == 0 {
        return write_lists(k, &[4], &rows[16..], out);
    }
    write_lists(k, &[4, 4], &rows, out)
}
