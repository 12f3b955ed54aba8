// Frame rows, written into a row area.
ghost use Rattle.std.specs.Prelude.{◌≡◌, ◌*◌, ◌<◌, ◌≤◌, length};
ghost use Rattle.rtp.specs.Editions.{current};
ghost use Rattle.rtp.specs.Areas.{over};
ghost use Rattle.formats.specs.Frames.{step_of};
ghost use Rattle.read_contents.specs.Contents.{entry_size, gap_at, gaps_from, contents, contents_read_numbers, contents_numbers, sizes_answer};
ghost use Rattle.read_rows.specs.Rows.{row_words, words, block_rows, group_rows, time_after, marked};
ghost use Rattle.read_rows.specs.Room.{RowRoom, BlockRoom, GroupRoom, TableRoom, contents_words, origin_of};
ghost use Rattle.read_rows.specs.Tables.{fitting, fitting_words};

use formats::frames;
use read_contents::entries;
use read_contents::entries::Sizes;
use row_tags::tagging;
use rtp::refusal::{Fault, Refusal};
use rtp::sizes::{MAX_PACKET, ROW_AREA, ROW_WIDTH};
use rtp::time;

// What is one for a whole payload: the mark that it was heard with, its format and its channels.
#[derive(Clone, Copy, Debug, PartialEq, Eq)]
struct Payload {
    mark: u8,
    format: u8,
    channels: usize,
}

// A frame: its time, its class, and where it stands in the packet.
#[derive(Clone, Copy, Debug, PartialEq, Eq)]
struct Frame {
    time: u32,
    class: u8,
    start: usize,
    size: usize,
}

// A frame's row at the front of the area.
fn put_row(rows: &mut [u32], mark: u8, channel: usize, frame: Frame)
    requires { RowRoom channel frame.start frame.size (length rows.old) }
    ensures { rows.new ≡
        over (row_words (record { time = frame.time; class = frame.class; channel = channel; start = frame.start; length = frame.size; primary = mark })) rows.old }
{
    rows[0] = frame.time;
    rows[1] = tagging::pack_tag(mark, frame.class, channel as u8);
    rows[2] = frame.start as u32;
    rows[3] = frame.size as u32;
}

// The rows of a frame-block: the first channel's frame is this one, and the others' follow it.
fn put_block(rows: &mut [u32], mark: u8, channels: usize, frame: Frame)
    requires { BlockRoom channels frame.start frame.size (length rows.old) }
    ensures { rows.new ≡ over (words (marked mark (block_rows channels 0 frame.time frame.class frame.start frame.size))) rows.old }
{
    for channel in 0..channels {
        let place = ROW_WIDTH * channel;
        let here = Frame {
            start: frame.start + channel * frame.size,
            ..frame
        };
        put_row(&mut rows[place..], mark, channel, here);
    }
}

// The rows of the frame-blocks of the entry at the front of s. The frame is the first one, but for its time, which is that of the place before the first gap;
// answers the time of the place after them.
fn put_group(rows: &mut [u32], s: &[u8], payload: &Payload, blocks: usize, frame: Frame) -> u32
    requires { GroupRoom blocks payload.now.channels frame.start frame.size (length rows.old) }
    ensures { (result ≡ time_after (step_of payload.now.format) frame.time (gaps_from payload.now.format s.now 0 blocks))
        × (rows.new ≡
        over (words (marked payload.now.mark (group_rows (step_of payload.now.format) payload.now.channels frame.time frame.class frame.start frame.size (gaps_from payload.now.format s.now 0 blocks)))) rows.old) }
{
    let step = frames::step_of(payload.format);
    let mut time = frame.time;
    for k in 0..blocks {
        let skipped = entries::gap(payload.format, s, k) * step;
        let here = std::num::wrapping_add_u32(time, skipped);
        let before = k * payload.channels;
        let block = Frame {
            time: here,
            start: frame.start + before * frame.size,
            ..frame
        };
        let place = ROW_WIDTH * before;
        put_block(&mut rows[place..], payload.mark, payload.channels, block);
        time = std::num::wrapping_add_u32(here, step);
    }
    time
}

// The time from which the rows of a payload at `time` are counted: its first entry's DIS1 is passed over.
fn origin(format: u8, time: u32, s: &[u8]) -> u32
    ensures { (result ≡ origin_of format time s.now) × (gap_at format s.now 0 < 16) }
{
    let skipped = entries::gap(format, s, 0) * frames::step_of(format);
    time::difference(time, skipped)
}

// The rows of the table at the front of s, where `done` rows came before it, its frame-blocks are counted from `time` and its
// frames start at `start`.
fn put_contents(rows: &mut [u32], s: &[u8], payload: &Payload, done: usize, time: u32, start: usize)
    requires { TableRoom payload.now.channels start (length rows.old) (sizes_answer payload.now.format payload.now.channels (contents current payload.now.format payload.now.channels done s.now)) }
    ensures { rows.new ≡ over (contents_words payload.now.mark payload.now.format payload.now.channels time start (contents current payload.now.format payload.now.channels done s.now)) rows.old }
{
    if let Ok(entry) = entries::read_entry(payload.format, s) {
        let frame = Frame {
            time,
            class: entry.class as u8,
            start,
            size: entry.length,
        };
        let next = put_group(rows, s, payload, entry.blocks, frame);
        if entry.more {
            let here = entry.blocks * payload.channels;
            let width = ROW_WIDTH * here;
            let size = entry.size;
            put_contents(
                &mut rows[width..],
                &s[size..],
                payload,
                done + here,
                next,
                start + here * entry.length,
            );
        }
    }
}

// The table and the frames s, which stand at `at` in the packet and after `done` of its rows and are heard with this mark: the rows at the front of the
// area, or a refusal and the area unchanged. The area is to have room for all the rows that the packet may have.
pub fn put_table(
    area: &mut [u32],
    mark: u8,
    s: &[u8],
    format: u8,
    channels: u8,
    done: u32,
    time: u32,
    at: u32,
) -> Result<Sizes, Fault>
    ensures { (contents_read_numbers result ≡ contents_numbers format channels (fitting current format channels done (length area.old) at s.now))
        × (area.new ≡
        over (fitting_words mark format channels time at (fitting current format channels done (length area.old) at s.now)) area.old) }
{
    if ROW_WIDTH * (done as usize) + area.len() < ROW_AREA {
        return Err(Fault::from(Refusal::AreaTooShort));
    }
    if MAX_PACKET < (at as usize) + s.len() {
        return Err(Fault::from(Refusal::PacketLength));
    }
    let sizes = entries::read_contents(format, channels, done, s)?;
    if sizes.size + sizes.frames != s.len() {
        return Err(Fault {
            refusal: Refusal::LengthMismatch,
            offset: sizes.size,
        });
    }
    let payload = Payload {
        mark,
        format,
        channels: channels as usize,
    };
    put_contents(
        area,
        s,
        &payload,
        done as usize,
        origin(format, time, s),
        (at as usize) + sizes.size,
    );
    Ok(sizes)
}
