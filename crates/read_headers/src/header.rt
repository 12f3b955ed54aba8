// The RTP header (RFC 3550).
ghost use Rattle.std.specs.Prelude.{◌≡◌, ◌≤◌, length};
ghost use Rattle.rtp.specs.Sizes.{min_packet};
ghost use Rattle.read_headers.specs.Header.{payload_start, payload_end, header, fields, header_numbers};

use rtp::bytes;
use rtp::refusal::Refusal;
use rtp::sizes::{MAX_PACKET, MIN_PACKET};

// What a header says; the payload is the packet's part from `start` up to `end`.
#[derive(Clone, Copy, Debug, PartialEq, Eq)]
pub struct Header {
    pub marker: u8,
    pub payload_type: u8,
    pub sequence: u16,
    pub timestamp: u32,
    pub source: u32,
    pub start: usize,
    pub end: usize,
}

// Where the payload starts: after the fixed header, the CSRC list and the extension.
pub(crate) fn payload_start(packet: &[u8]) -> Result<usize, Refusal>
    requires { min_packet ≤ length packet.now }
    ensures { result ≡ payload_start packet.now }
{
    let first = bytes::wide(packet[0]);
    let csrc_end = MIN_PACKET + 4 * (first % 16);
    if packet.len() < csrc_end {
        return Err(Refusal::HeaderTruncated);
    }
    if first / 16 % 2 == 0 {
        return Ok(csrc_end);
    }
    if packet.len() < csrc_end + 4 {
        return Err(Refusal::HeaderTruncated);
    }
    let words = bytes::read_u16(packet, csrc_end + 2) as usize;
    let extension_end = csrc_end + 4 + 4 * words;
    if packet.len() < extension_end {
        return Err(Refusal::HeaderTruncated);
    }
    Ok(extension_end)
}

// Where the payload ends: before the padding.
pub(crate) fn payload_end(packet: &[u8], start: usize) -> Result<usize, Refusal>
    requires { (min_packet ≤ length packet.now) × (start ≤ length packet.now) }
    ensures { result ≡ payload_end packet.now start }
{
    let first = bytes::wide(packet[0]);
    let length = packet.len();
    if first / 32 % 2 == 0 {
        return Ok(length);
    }
    let count = bytes::wide(packet[length - 1]);
    if count == 0 {
        return Err(Refusal::PaddingCount);
    }
    if length - start < count {
        return Err(Refusal::PaddingCount);
    }
    Ok(length - count)
}

// The header's fields, with the payload's bounds.
pub(crate) fn header_fields(packet: &[u8], start: usize, end: usize) -> Header
    requires { min_packet ≤ length packet.now }
    ensures { result ≡ fields packet.now start end }
{
    let second = packet[1];
    Header {
        marker: second / 128,
        payload_type: second % 128,
        sequence: bytes::read_u16(packet, 2),
        timestamp: bytes::read_u32(packet, 4),
        source: bytes::read_u32(packet, 8),
        start,
        end,
    }
}

// The header of a packet.
pub fn read_header(packet: &[u8]) -> Result<Header, Refusal>
    ensures { header_numbers result ≡ header_numbers (header packet.now) }
{
    if packet.len() < MIN_PACKET {
        return Err(Refusal::PacketLength);
    }
    if MAX_PACKET < packet.len() {
        return Err(Refusal::PacketLength);
    }
    let version = packet[0] / 64;
    if version != 2 {
        return Err(Refusal::Version);
    }
    let start = payload_start(packet)?;
    let end = payload_end(packet, start)?;
    Ok(header_fields(packet, start, end))
}
