// Tables of contents.
ghost use Rattle.std.specs.Prelude.{◌≡◌, ◌+◌, ◌<◌, ◌≤◌, length};
ghost use Rattle.rtp.specs.Editions.{current};
ghost use Rattle.read_contents.specs.Contents.{min_entry, code_in, blocks_in, entry_size, entry_of, entry_numbers, contents, contents_read_numbers, contents_numbers, gap_at};
ghost use Rattle.formats.specs.Formats.{format_of};

use formats::{facts, frames};
use rtp::refusal::{Fault, Refusal};
use rtp::sizes::MAX_ROWS;
use rtp::{bytes, refusal};

// One table entry: whether another follows, the frames' class and length, the number of frame-blocks, and the entry's own bytes.
#[derive(Clone, Copy, Debug, PartialEq, Eq)]
pub struct Entry {
    pub more: bool,
    pub class: usize,
    pub length: usize,
    pub blocks: usize,
    pub size: usize,
}

// A whole table: its rows, its own bytes, and the bytes of the frames that follow it.
#[derive(Clone, Copy, Debug, PartialEq, Eq)]
pub struct Sizes {
    pub rows: usize,
    pub size: usize,
    pub frames: usize,
}

// The bytes that an entry has at least.
pub fn min_entry(format: u8) -> usize
    ensures { result ≡ min_entry format }
{
    if facts::format_of(format).counted {
        return 2;
    }
    1
}

// The frame code in an entry's first byte.
fn code_in(format: u8, first: usize) -> usize
    ensures { (result ≡ code_in format first) × (result < (format_of format).codes) }
{
    let facts = facts::format_of(format);
    first / facts.unit % facts.codes
}

// The number of frame-blocks of the entry at the front of s.
fn blocks_in(format: u8, s: &[u8]) -> usize
    requires { min_entry format ≤ length s.now }
    ensures { (result ≡ blocks_in format s.now) × (result < 256) }
{
    if facts::format_of(format).counted {
        return bytes::wide(s[1]);
    }
    1
}

// The bytes of an entry with so many frame-blocks.
pub fn entry_size(format: u8, blocks: usize) -> usize
    ensures { result ≡ entry_size format blocks }
{
    let size = min_entry(format);
    if facts::format_of(format).displaced {
        return size + (blocks / 2 + blocks % 2);
    }
    size
}

// The entry at the front of s.
pub fn read_entry(format: u8, s: &[u8]) -> Result<Entry, Refusal>
    ensures { entry_numbers result ≡ entry_numbers (entry_of format s.now) }
{
    if s.len() < min_entry(format) {
        return Err(Refusal::ContentsTruncated);
    }
    let first = bytes::wide(s[0]);
    let blocks = blocks_in(format, s);
    let size = entry_size(format, blocks);
    if s.len() < size {
        return Err(Refusal::ContentsTruncated);
    }
    let frame = frames::frame_of(format, code_in(format, first)).ok_or(Refusal::ReservedCode)?;
    if blocks == 0 {
        return Err(Refusal::NoFrameBlocks);
    }
    Ok(Entry {
        more: 128 <= first,
        class: frame.class,
        length: frame.length,
        blocks,
        size,
    })
}

// The table at the front of s, where `rows` rows came before it. `&s[0..]` and not `s` is passed on, here and where a payload is read: the same slice,
// but its address and length go by themselves, and not as one copy that would have to wait for both (docs/PERFORMANCE.md).
pub fn read_contents(format: u8, channels: u8, rows: u32, s: &[u8]) -> Result<Sizes, Fault>
    ensures { contents_read_numbers result ≡ contents_numbers format channels (contents current format channels rows s.now) }
{
    let entry = read_entry(format, &s[0..])?;
    let here = entry.blocks * (channels as usize);
    let so_far = (rows as usize) + here;
    if MAX_ROWS < so_far {
        return Err(Fault::from(Refusal::TooManyRows));
    }
    let size = entry.size;
    let frames = here * entry.length;
    if !entry.more {
        return Ok(Sizes {
            rows: here,
            size,
            frames,
        });
    }
    let rest = refusal::shifted(
        read_contents(format, channels, so_far as u32, &s[size..]),
        size,
    )?;
    Ok(Sizes {
        rows: here + rest.rows,
        size: size + rest.size,
        frames: frames + rest.frames,
    })
}

// The frame-blocks left out before frame-block k of the entry at the front of s, none where s ends before.
pub fn gap(format: u8, s: &[u8], k: usize) -> u32
    ensures { (result ≡ gap_at format s.now k) × (result < 16) }
{
    if facts::format_of(format).displaced {
        let at = min_entry(format) + k / 2;
        if at < s.len() {
            let pair = s[at] as u32;
            return if k % 2 == 0 { pair / 16 } else { pair % 16 };
        }
    }
    0
}
