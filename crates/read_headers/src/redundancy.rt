// Redundancy block headers (RFC 2198).
ghost use Rattle.std.specs.Prelude.{◌≡◌, ◌≤◌, length};
ghost use Rattle.rtp.specs.Sizes.{max_packet};
ghost use Rattle.read_headers.specs.Redundancy.{block_header, block_numbers, headers, headers_answer, redundancy_headers, headers_read_numbers, headers_numbers};

use rtp::refusal::{Fault, Refusal};
use rtp::sizes::MAX_PACKET;
use rtp::{bytes, refusal};

// The four-byte header of a redundant block.
#[derive(Clone, Copy, Debug, PartialEq, Eq)]
pub struct Redundant {
    pub payload_type: u8,
    pub offset: u32,
    pub length: usize,
}

// One block header: of a redundant block, or the primary block's single byte, its payload type.
#[derive(Clone, Copy, Debug, PartialEq, Eq)]
pub enum BlockHeader {
    Redundant(Redundant),
    Primary(u8),
}

// All the block headers: their own bytes, and the bytes of the redundant blocks.
#[derive(Clone, Copy, Debug, PartialEq, Eq)]
pub struct HeaderSizes {
    pub size: usize,
    pub redundant: usize,
}

// The block header at the front of s.
pub fn read_block_header(s: &[u8]) -> Result<BlockHeader, Refusal>
    ensures { block_numbers result ≡ block_numbers (block_header s.now) }
{
    if s.len() == 0 {
        return Err(Refusal::ContentsTruncated);
    }
    let first = s[0];
    if first < 128 {
        return Ok(BlockHeader::Primary(first));
    }
    if s.len() < 4 {
        return Err(Refusal::ContentsTruncated);
    }
    let second = bytes::wide(s[1]);
    let third = bytes::wide(s[2]);
    let fourth = bytes::wide(s[3]);
    Ok(BlockHeader::Redundant(Redundant {
        payload_type: first % 128,
        offset: (64 * second + third / 4) as u32,
        length: 256 * (third % 4) + fourth,
    }))
}

// The block headers at the front of s, one after another up to the primary block's.
pub(crate) fn headers_from(s: &[u8]) -> Result<HeaderSizes, Fault>
    requires { length s.now ≤ max_packet }
    ensures { result ≡ headers_answer (headers s.now) }
{
    match read_block_header(s)? {
        BlockHeader::Primary(_) => Ok(HeaderSizes {
            size: 1,
            redundant: 0,
        }),
        BlockHeader::Redundant(block) => {
            let rest = refusal::shifted(headers_from(&s[4..]), 4)?;
            Ok(HeaderSizes {
                size: 4 + rest.size,
                redundant: block.length + rest.redundant,
            })
        }
    }
}

// The sizes of the block headers of a redundancy payload.
pub fn read_headers(s: &[u8]) -> Result<HeaderSizes, Fault>
    ensures { headers_read_numbers result ≡ headers_numbers (redundancy_headers s.now) }
{
    if MAX_PACKET < s.len() {
        return Err(Fault::from(Refusal::PacketLength));
    }
    headers_from(s)
}
