// The table of contents that a frame list is written with.
ghost use Rattle.std.specs.Prelude.{◌≡◌, ◌+◌, ◌*◌, ◌/◌, ◌%◌, ◌^◌, ◌<◌, eqb, length};
ghost use Rattle.rtp.specs.Editions.{current};
ghost use Rattle.rtp.specs.Sizes.{row_width, max_rows};
ghost use Rattle.formats.specs.Formats.{format_of, step_of, max_gap};
ghost use Rattle.write_plan.specs.Entries.{first_blocks};
ghost use Rattle.write_plan.specs.Lists.{rows_in};
ghost use Rattle.write_plan.specs.Plans.{ticks_after, gap_between, next_channel, starts, continues, follows, joins_run, plan_from, plan};
ghost use Rattle.write_plan.specs.Room.{row_as, run_size, plan_answer, single_plan, attach_plan, Attachable, list_plan_numbers, list_numbers};

use crate::lists;
use crate::lists::RowWords;
use formats::{facts, frames};
use frame_codes::coding;
use read_contents::entries;
use row_tags::tagging;
use rtp::sizes::{MAX_PACKET, MAX_ROWS, MIN_PACKET, ROW_WIDTH};
use rtp::time;

// A plan by its first run: class, length, the gap before it and its frame-blocks; the bytes of its entries and of those after it, and of all frames.
#[derive(Clone, Copy, Debug, PartialEq, Eq)]
pub struct Plan {
    pub class: u32,
    pub length: u32,
    pub gap: u32,
    pub blocks: usize,
    pub run: usize,
    pub others: usize,
    pub frames: usize,
}

// The ticks from the place after a frame-block to a time.
fn ticks_after(format: u8, previous: u32, time: u32) -> u32
    ensures { result ≡ ticks_after (step_of format) previous time }
{
    let back = time::difference(time, frames::step_of(format));
    time::difference(back, previous)
}

// So many ticks in whole frame-blocks.
fn in_steps(format: u8, ticks: u32) -> u32
    ensures { result ≡ ticks / step_of format }
{
    ticks / frames::step_of(format)
}

// Whether so many ticks are whole frame-blocks.
fn whole_steps(format: u8, ticks: u32) -> bool
    ensures { result ≡ eqb (ticks % step_of format) 0 }
{
    ticks % frames::step_of(format) == 0
}

// The frame-blocks left out between a frame-block and the next.
pub fn gap_between(format: u8, previous: u32, time: u32) -> u32
    ensures { result ≡ gap_between (step_of format) previous time }
{
    in_steps(format, ticks_after(format, previous, time))
}

// The most frame-blocks that an entry can leave out before one of its own.
fn max_gap(format: u8) -> u32
    ensures { result ≡ max_gap format }
{
    if facts::format_of(format).displaced {
        15
    } else {
        0
    }
}

// The channel after c.
fn next_channel(channels: u32, c: u32) -> u32
    requires { c < channels }
    ensures { result ≡ next_channel channels c }
{
    if c + 1 == channels { 0 } else { c + 1 }
}

fn starts_block(format: u8, previous: u32, row: RowWords) -> bool
    ensures { result ≡ starts format previous (row_as row) }
{
    coding::has_code(format, tagging::tag_class(row.tag), row.length)
        && whole_steps(format, ticks_after(format, previous, row.time))
}

fn continues_block(previous: RowWords, row: RowWords) -> bool
    ensures { result ≡ continues (row_as previous) (row_as row) }
{
    row.time == previous.time
        && tagging::tag_class(row.tag) == tagging::tag_class(previous.tag)
        && row.length == previous.length
}

// Whether a row may stand at channel c after another.
fn follows_row(format: u8, c: u32, previous: RowWords, row: RowWords) -> bool
    ensures { result ≡ follows format c (row_as previous) (row_as row) }
{
    if tagging::tag_channel(row.tag) != c {
        return false;
    }
    if c == 0 {
        starts_block(format, previous.time, row)
    } else {
        continues_block(previous, row)
    }
}

// Whether a frame-block and the run after it, of this class, length and gap, make one run.
pub fn joins_run(format: u8, row: RowWords, class: u32, length: u32, gap: u32) -> bool
    ensures { result ≡ joins_run format (row_as row) class length gap }
{
    facts::format_of(format).counted
        && tagging::tag_class(row.tag) == class
        && row.length == length
        && gap <= max_gap(format)
}

// The most frame-blocks that an entry counts, and those of the first entry of a longer run.
const MAX_BLOCKS: usize = 255;

const FIRST_PART: usize = 254;

// The frame-blocks of the first entry of a run of so many.
pub fn first_blocks(blocks: usize) -> usize
    ensures { result ≡ first_blocks blocks }
{
    if blocks <= MAX_BLOCKS {
        blocks
    } else {
        FIRST_PART
    }
}

// The bytes of the entries of a run of so many frame-blocks.
fn run_size(format: u8, blocks: usize) -> usize
    ensures { result ≡ run_size format blocks }
{
    if blocks <= MAX_BLOCKS {
        return entries::entry_size(format, blocks);
    }
    let first = entries::entry_size(format, FIRST_PART);
    first + entries::entry_size(format, blocks - FIRST_PART)
}

// The plan of one frame-block by itself, before entries of so many bytes; all frames take so many.
fn single_block(format: u8, row: RowWords, gap: u32, others: usize, frames: usize) -> Plan
    ensures { result ≡ single_plan format (row_as row) gap others frames }
{
    Plan {
        class: tagging::tag_class(row.tag),
        length: row.length,
        gap,
        blocks: 1,
        run: run_size(format, 1),
        others,
        frames,
    }
}

// A frame-block before a plan, or before no run at all; none where the run cannot follow it. It answers what plan_from does, in place: a plan is not
// copied on its way through the rows.
fn attach_block(
    format: u8,
    channels: u32,
    row: RowWords,
    gap: u32,
    rest: Option<Option<Plan>>,
) -> Option<Option<Plan>>
    requires { Attachable current format channels (row_as row) rest }
    ensures { result ≡ attach_plan format channels (row_as row) gap rest }
{
    let frames = (channels as usize) * (row.length as usize);
    let Some(plan) = rest? else {
        return Some(Some(single_block(format, row, gap, 0, frames)));
    };
    let frames = frames + plan.frames;
    if joins_run(format, row, plan.class, plan.length, plan.gap) {
        let blocks = plan.blocks + 1;
        let run = run_size(format, blocks);
        return Some(Some(Plan {
            gap,
            blocks,
            run,
            frames,
            ..plan
        }));
    }
    if plan.gap <= max_gap(format) {
        let others = plan.run + plan.others;
        return Some(Some(single_block(format, row, gap, others, frames)));
    }
    None
}

// The runs of the rows from channel c on, after a row: none where they cannot be written, and no plan where there are no rows.
fn plan_from(
    format: u8,
    channels: u32,
    c: u32,
    previous: RowWords,
    rows: &[u32],
) -> Option<Option<Plan>>
    requires { (channels < 256) × (c < channels) × (length rows.now < row_width * max_rows current + row_width) }
    ensures { result ≡ plan_answer format channels (plan_from format channels c (row_as previous) (rows_in rows.now)) }
{
    if rows.len() < ROW_WIDTH {
        return if c == 0 { Some(None) } else { None };
    }
    let row = lists::first_row(rows);
    if !follows_row(format, c, previous, row) {
        return None;
    }
    let next = next_channel(channels, c);
    let rest = plan_from(format, channels, next, row, &rows[ROW_WIDTH..]);
    if c != 0 {
        return rest;
    }
    let gap = gap_between(format, previous.time, row.time);
    attach_block(format, channels, row, gap, rest)
}

// The longest payload that is written alone.
pub const MAX_PAYLOAD: usize = MAX_PACKET - MIN_PACKET;

// The bytes of a payload with a table and frames of so many.
fn payload_size(format: u8, table: usize, frames: usize) -> usize
    requires { table + frames < 2 ^ 32 }
    ensures { result ≡ (format_of format).header + table + frames }
{
    let header = facts::format_of(format).header;
    header + table + frames
}

// The bytes of a payload's table, and of the whole payload.
#[derive(Clone, Copy, Debug, PartialEq, Eq)]
pub struct Sizes {
    pub table: usize,
    pub payload: usize,
}

// The plan of a whole list, by its sizes; none where it cannot be written.
pub fn plan_list(format: u8, channels: u8, rows: &[u32]) -> Option<Sizes>
    ensures { list_plan_numbers result ≡ list_numbers format channels (plan current format channels (rows_in rows.now)) }
{
    if channels == 0 {
        return None;
    }
    if rows.len() < ROW_WIDTH {
        return None;
    }
    if MAX_ROWS < rows.len() / ROW_WIDTH {
        return None;
    }
    let first = lists::first_row(rows);
    let time = time::difference(first.time, frames::step_of(format));
    let before = RowWords { time, ..first };
    let plan = plan_from(format, channels as u32, 0, before, rows)??;
    let table = plan.run + plan.others;
    let payload = payload_size(format, table, plan.frames);
    if MAX_PAYLOAD < payload {
        return None;
    }
    Some(Sizes { table, payload })
}
