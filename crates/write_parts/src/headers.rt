// RTP headers and redundancy block headers, written.
ghost use Rattle.std.specs.Prelude.{◌≡◌, ◌+◌, ◌<◌};
ghost use Rattle.write_parts.specs.Headings.{marker_bit, with_header, with_block_header};

use crate::sizes::{MAX_BLOCK, MAX_OFFSET};
use rtp::bytes;
use rtp::sizes::MIN_PACKET;

// What the caller gives for a header; a marker other than 0 is set.
#[derive(Clone, Copy, Debug, PartialEq, Eq)]
pub struct Heading {
    pub marker: u8,
    pub sequence: u16,
    pub source: u32,
}

// A header's second byte; a marker other than 0 is set.
fn second_byte(marker: u8, packet_type: u8) -> u8
    requires { packet_type < 128 }
    ensures { result ≡ marker_bit marker + packet_type }
{
    if marker == 0 {
        packet_type
    } else {
        128 + packet_type
    }
}

// The twelve bytes of a header with no CC, X or P; a type of more than 7 bits or an area too short leaves the area as it stood.
pub fn put_header(out: &mut [u8], heading: Heading, packet_type: u8, time: u32)
    ensures { out.new ≡ with_header heading packet_type time out.old }
{
    if out.len() < MIN_PACKET {
        return;
    }
    if 127 < packet_type {
        return;
    }
    out[0] = 128;
    out[1] = second_byte(heading.marker, packet_type);
    bytes::put_u16(&mut out[2..], heading.sequence);
    bytes::put_u32(&mut out[4..], time);
    bytes::put_u32(&mut out[8..], heading.source);
}

// The four bytes of a redundant block's header; numbers of too many bits or an area too short leave the area as it stood.
pub fn put_block_header(out: &mut [u8], payload_type: u8, offset: u32, size: usize)
    ensures { out.new ≡ with_block_header payload_type offset size out.old }
{
    if out.len() < 4 {
        return;
    }
    if 127 < payload_type {
        return;
    }
    if MAX_OFFSET < offset {
        return;
    }
    if MAX_BLOCK < size {
        return;
    }
    out[0] = 128 + payload_type;
    out[1] = (offset / 64) as u8;
    out[2] = (4 * (offset % 64)) as u8 + (size / 256) as u8;
    out[3] = (size % 256) as u8;
}
