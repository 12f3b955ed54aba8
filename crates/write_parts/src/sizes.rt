// The frame lists of a packet, which lie one after another in a word area: their words, times and sizes.
ghost use Rattle.std.specs.Prelude.{◌≡◌, ◌+◌, ◌*◌, ◌^◌, ◌≤◌, length};
ghost use Rattle.rtp.specs.Editions.{current};
ghost use Rattle.write_plan.specs.Lists.{rows_in, first_time};
ghost use Rattle.write_sizes.specs.Measures.{written_numbers};
ghost use Rattle.write_parts.specs.Parts.{max_redundant, total, counts_fit, primary_time};
ghost use Rattle.write_parts.specs.ListSizes.{first_words, offset_of, redundant_numbers, lists_numbers, within_numbers, size_numbers};

use rtp::refusal::Refusal;
use rtp::settings::{NO_REDUNDANCY, Settings};
use rtp::sizes::{MAX_PACKET, MAX_ROWS, MIN_PACKET, ROW_WIDTH};
use rtp::time;
use write_sizes::measuring;

// The most redundant lists of a packet, the largest offset of one and the most bytes of its payload.
pub const MAX_REDUNDANT: usize = 4;

pub const MAX_OFFSET: u32 = 16383;

pub const MAX_BLOCK: usize = 1023;

// The rows that the counts tell of.
fn total_of(counts: &[u32]) -> usize
    requires { length counts.now ≤ max_redundant + 1 }
    ensures { (result ≡ total counts.now) × (result ≤ length counts.now * 2 ^ 32) }
{
    counts.iter().map(|n| *n as usize).sum()
}

// One to five counts, which make up the area, and at most 384 rows in all.
pub fn counts_fit(counts: &[u32], rows: &[u32]) -> bool
    ensures { result ≡ counts_fit current counts.now rows.now }
{
    if counts.len() == 0 {
        return false;
    }
    if MAX_REDUNDANT + 1 < counts.len() {
        return false;
    }
    let total = total_of(counts);
    rows.len() == ROW_WIDTH * total && total <= MAX_ROWS
}

// The words of the first list, at most all.
pub fn first_words(counts: &[u32], rows: &[u32]) -> usize
    ensures { (result ≡ first_words counts.now rows.now) × (result ≤ length rows.now) }
{
    if counts.len() == 0 {
        return 0;
    }
    let words = ROW_WIDTH * (counts[0] as usize);
    words.min(rows.len())
}

// The time of a list's first row; 0 of none.
fn first_time(rows: &[u32]) -> u32
    ensures { result ≡ first_time (rows_in rows.now) }
{
    if rows.len() < ROW_WIDTH {
        return 0;
    }
    rows[0]
}

// How far before `time` a list stands.
pub fn offset_of(time: u32, rows: &[u32]) -> u32
    ensures { result ≡ offset_of time rows.now }
{
    time::difference(time, first_time(rows))
}

// The time of the primary list, the last; 0 where there is no list.
pub fn primary_time(counts: &[u32], rows: &[u32]) -> u32
    ensures { result ≡ primary_time counts.now (rows_in rows.now) }
{
    if counts.len() == 0 {
        return 0;
    }
    if counts.len() < 2 {
        return first_time(rows);
    }
    let n = first_words(counts, rows);
    primary_time(&counts[1..], &rows[n..])
}

// The bytes that a redundant list takes, its block header too.
fn measure_redundant(asked: Settings, time: u32, rows: &[u32]) -> Result<usize, Refusal>
    ensures { written_numbers result ≡ redundant_numbers current asked time rows.now }
{
    let Ok(size) = measuring::measure_payload(asked, rows) else {
        return Err(Refusal::Unwritable);
    };
    if MAX_BLOCK < size {
        return Err(Refusal::Unwritable);
    }
    if MAX_OFFSET < offset_of(time, rows) {
        return Err(Refusal::Unwritable);
    }
    Ok(4 + size)
}

// The bytes that the lists take, but for the primary block's header.
fn measure_lists(asked: Settings, time: u32, counts: &[u32], rows: &[u32]) -> Result<usize, Refusal>
    requires { length counts.now ≤ max_redundant + 1 }
    ensures { written_numbers result ≡ lists_numbers current asked time counts.now rows.now }
{
    if counts.len() < 2 {
        return measuring::measure_payload(asked, rows);
    }
    let n = first_words(counts, rows);
    let Ok(size) = measure_redundant(asked, time, &rows[..n]) else {
        return Err(Refusal::Unwritable);
    };
    let Ok(rest) = measure_lists(asked, time, &counts[1..], &rows[n..]) else {
        return Err(Refusal::Unwritable);
    };
    Ok(size + rest)
}

// A packet of so many bytes is within 2,048.
fn within_packet(size: usize) -> Result<usize, Refusal>
    ensures { written_numbers result ≡ within_numbers size }
{
    if MAX_PACKET < size {
        return Err(Refusal::Unwritable);
    }
    Ok(size)
}

// The bytes of a packet of the lists, which are at most five.
pub fn packet_size(
    asked: Settings,
    time: u32,
    counts: &[u32],
    rows: &[u32],
) -> Result<usize, Refusal>
    ensures { written_numbers result ≡ size_numbers current asked time counts.now rows.now }
{
    if MAX_REDUNDANT + 1 < counts.len() {
        return Err(Refusal::Unwritable);
    }
    let Ok(size) = measure_lists(asked, time, counts, rows) else {
        return Err(Refusal::Unwritable);
    };
    if counts.len() < 2 {
        return within_packet(MIN_PACKET + size);
    }
    if asked.redundancy_type == NO_REDUNDANCY {
        return Err(Refusal::Unwritable);
    }
    within_packet(MIN_PACKET + 1 + size)
}
