// Tables of contents and frames, written from left to right.
ghost use Rattle.std.specs.Prelude.{◌≡◌, ◌<◌, length};
ghost use Rattle.rtp.specs.Editions.{current};
ghost use Rattle.rtp.specs.Areas.{over};
ghost use Rattle.formats.specs.Formats.{step_of};
ghost use Rattle.write_plan.specs.Lists.{rows_in};
ghost use Rattle.frame_codes.specs.Codes.{no_code, code_for};
ghost use Rattle.write_plan.specs.Entries.{in_entries};
ghost use Rattle.write_plan.specs.Plans.{plan_from};
ghost use Rattle.write_payload.specs.Bytes.{flag, halves, first_byte, start_bytes, entry_bytes, frames};
ghost use Rattle.write_plan.specs.Room.{row_as};
ghost use Rattle.write_payload.specs.Room.{FramesRoom, joined, RunRoom, timed, block_gaps, run_group, GapRoom, StartRoom, EntryRoom, TableRoom, plan_bytes};

use formats::facts;
use frame_codes::coding;
use read_contents::entries;
use row_tags::tagging;
use rtp::bytes;
use rtp::sizes::ROW_WIDTH;
use write_plan::lists::RowWords;
use write_plan::{lists, planning};

// The frames of the rows, one after another.
pub(crate) fn put_frames(rows: &[u32], bytes: &[u8], out: &mut [u8])
    requires { FramesRoom (length bytes.now) (rows_in rows.now) (length out.old) }
    ensures { out.new ≡ over (frames bytes.now (rows_in rows.now)) out.old }
{
    let mut place = 0;
    for words in rows.chunks_exact(ROW_WIDTH) {
        let row = lists::first_row(words);
        let start = row.start as usize;
        let length = row.length as usize;
        let end = start + length;
        bytes::put_bytes(&mut out[place..], &bytes[start..end]);
        place += length;
    }
}

// The frame-blocks at the front that are in one run with the frame-block before them, which this row is of.
fn joined_blocks(format: u8, channels: usize, row: RowWords, rows: &[u32]) -> usize
    requires { RunRoom format channels (row_as row) rows.now }
    ensures { result ≡ joined format (row_as row) (plan_from format channels 0 (row_as row) (rows_in rows.now)) }
{
    if rows.len() < ROW_WIDTH {
        return 0;
    }
    let next = lists::first_row(rows);
    let gap = planning::gap_between(format, row.time, next.time);
    if planning::joins_run(format, row, tagging::tag_class(next.tag), next.length, gap) {
        let width = ROW_WIDTH * channels;
        return joined_blocks(format, channels, next, &rows[width..]) + 1;
    }
    0
}

// The bit F: another entry follows.
fn flag_of(more: bool) -> usize
    ensures { result ≡ flag more }
{
    if more { 128 } else { 0 }
}

// An entry's first byte: F, the code of its frames, and reserved bits.
fn first_byte(format: u8, more: bool, class: u32, length: u32) -> u8
    requires { code_for format class length < no_code }
    ensures { result ≡ first_byte format more class length }
{
    let code = coding::code_for(format, class, length) as usize;
    let facts = facts::format_of(format);
    (flag_of(more) + facts.unit * code) as u8
}

// An entry's bytes before its displacements.
fn put_start(format: u8, more: bool, class: u32, size: u32, blocks: usize, out: &mut [u8])
    requires { StartRoom format class size blocks (length out.old) }
    ensures { out.new ≡ over (start_bytes format more class size blocks) out.old }
{
    out[0] = first_byte(format, more, class, size);
    if facts::format_of(format).counted {
        out[1] = blocks as u8;
    }
}

// The gaps of so many frame-blocks in half bytes, high half first; the first of them comes after a frame-block at `previous`.
fn put_gaps(format: u8, width: usize, blocks: usize, previous: u32, rows: &[u32], out: &mut [u8])
    requires { GapRoom format width blocks previous rows.now (length out.old) }
    ensures { out.new ≡ over (halves (block_gaps (step_of format) width blocks previous rows.now)) out.old }
{
    if blocks == 0 {
        return;
    }
    let first = rows[0];
    let high = 16 * planning::gap_between(format, previous, first);
    if blocks == 1 {
        out[0] = high as u8;
        return;
    }
    let second = rows[width];
    out[0] = (high + planning::gap_between(format, first, second)) as u8;
    let two = 2 * width;
    put_gaps(
        format,
        width,
        blocks - 2,
        second,
        &rows[two..],
        &mut out[1..],
    );
}

// The entry of so many frame-blocks of a run at the front of the rows.
fn put_entry(
    format: u8,
    width: usize,
    blocks: usize,
    more: bool,
    previous: u32,
    rows: &[u32],
    out: &mut [u8],
)
    requires { EntryRoom format width blocks previous rows.now (length out.old) }
    ensures { out.new ≡ over (entry_bytes format more (run_group format width blocks previous rows.now)) out.old }
{
    let row = lists::first_row(rows);
    put_start(
        format,
        more,
        tagging::tag_class(row.tag),
        row.length,
        blocks,
        out,
    );
    if facts::format_of(format).displaced {
        let start = entries::min_entry(format);
        put_gaps(format, width, blocks, previous, rows, &mut out[start..]);
    }
}

// The table of the rows, entry by entry, after a frame-block at `previous`.
pub(crate) fn put_table(format: u8, channels: usize, previous: u32, rows: &[u32], out: &mut [u8])
    requires { TableRoom current format channels previous rows.now (length out.old) }
    ensures { out.new ≡ over (plan_bytes format (in_entries (plan_from format channels 0 (timed previous) (rows_in rows.now)))) out.old }
{
    if rows.len() < ROW_WIDTH {
        return;
    }
    let width = ROW_WIDTH * channels;
    let first = lists::first_row(rows);
    let run = joined_blocks(format, channels, first, &rows[width..]) + 1;
    let blocks = planning::first_blocks(run);
    let end = width * blocks;
    let more = ROW_WIDTH <= rows.len() - end;
    put_entry(format, width, blocks, more, previous, rows, out);
    let size = entries::entry_size(format, blocks);
    let last = rows[end - width];
    put_table(format, channels, last, &rows[end..], &mut out[size..]);
}
