// Frames judged against the buffer.
ghost use Rattle.std.specs.Prelude.{◌≡◌, ◌≤◌, List, ◌∷◌, length};
ghost use Rattle.rtp.specs.Editions.{current};
ghost use Rattle.rtp.specs.Sizes.{row_width};
ghost use Rattle.read_rows.specs.Rows.{Row, rows_in};
ghost use Rattle.buffer_copies.specs.Sizes.{slots as slot_count};
ghost use Rattle.buffer_slots.specs.Bits.{held_in};
ghost use Rattle.buffer_insert.specs.Laying.{mark_in, copy_in};
ghost use Rattle.buffer_insert.specs.Tallies.{no_tally};
ghost use Rattle.buffer_offer.specs.Rows.{first_row};
ghost use Rattle.buffer_offer.specs.Judging.{is_late_of, is_far_of, Judgeable, Timely, JudgedAs, RowsJudgeable, RowsJudged, PartJudged};

use buffer_columns::columns;
use buffer_copies::verdict::Verdict;
use buffer_insert::laying::FrameHead;
use buffer_insert::tally::Tally;
use buffer_insert::{laying, tally};
use buffer_layout::buffer::Buffer;
use buffer_layout::well_formed;
use buffer_slots::bits;
use buffer_slots::bits::SLOTS;
use row_tags::tagging;
use rtp::sizes::ROW_WIDTH;

// Whether a pair was drawn, and this one is not after it.
fn is_late(buffer: &Buffer, head: FrameHead) -> bool
    ensures { result ≡ is_late_of buffer.now head }
{
    let channel = tagging::tag_channel(head.tag);
    buffer.drawn == 1
        && !well_formed::pair_after(head.time, channel, buffer.last_time, buffer.last_channel)
}

// Whether nothing was drawn, and the first n times with this one fit in no stretch.
fn is_far(buffer: &Buffer, n: usize, time: u32) -> bool
    requires { n ≤ slot_count }
    ensures { result ≡ is_far_of buffer.now n time }
{
    buffer.drawn == 0 && !columns::in_stretch(&buffer.times, n, time)
}

// A frame neither late nor far, laid where its pair is held or belongs.
fn lay_copy(
    buffer: &mut Buffer,
    n: usize,
    head: FrameHead,
    frame: &[u8],
    store: &mut [u8],
) -> Verdict
    requires { (n ≡ held_in buffer.old.occupied) × (n ≤ slot_count) }
    ensures { Judgeable current buffer.old head frame.now store.old
        → Timely buffer.old (copy_in head frame.now)
        → JudgedAs buffer.old buffer.new (copy_in head frame.now) (mark_in head) store.old store.new result }
{
    let channel = tagging::tag_channel(head.tag);
    let search = columns::find_place(&buffer.times, &buffer.tags, n, head.time, channel);
    let place = search.place;
    match place {
        Ok(at) => laying::replace_copy(buffer, at, head, frame, store),
        Err(at) => {
            if SLOTS <= n {
                return Verdict::NoRoom;
            }
            laying::insert_copy(buffer, n, at, head, frame, store);
            Verdict::Inserted
        }
    }
}

// The verdict on a frame: the first that applies.
fn judge_copy(buffer: &mut Buffer, head: FrameHead, frame: &[u8], store: &mut [u8]) -> Verdict
    ensures { Judgeable current buffer.old head frame.now store.old
        → JudgedAs buffer.old buffer.new (copy_in head frame.now) (mark_in head) store.old store.new result }
{
    if is_late(buffer, head) {
        return Verdict::Late;
    }
    let n = bits::held_in(buffer.occupied);
    if is_far(buffer, n, head.time) {
        return Verdict::Far;
    }
    lay_copy(buffer, n, head, frame, store)
}

// A row judged, and the verdicts counted then; a row of no data is passed over, and one whose frame does not lie in the packet.
fn judge_row(
    buffer: &mut Buffer,
    tally: Tally,
    packet: &[u8],
    row: &[u32],
    store: &mut [u8],
) -> Tally
    requires { row_width ≤ length row.now }
    ensures { (others : List Row) → RowsJudgeable current buffer.old packet.now (first_row row.now ∷ others) tally store.old
        → PartJudged current buffer.old buffer.new packet.now (first_row row.now ∷ others) others tally result store.old store.new }
{
    let tag = row[1];
    if tagging::tag_class(tag) == 0 {
        return tally;
    }
    let start = row[2] as usize;
    let end = start + (row[3] as usize);
    if packet.len() < end {
        return tally;
    }
    let verdict = judge_copy(
        buffer,
        FrameHead { time: row[0], tag },
        &packet[start..end],
        store,
    );
    tally::count_verdict(tally, verdict)
}

// The rows judged in order, each against the buffer as the row before left it, where that can be: a well-formed buffer with its store, and rows that lie in the packet. How often each verdict was given.
pub(crate) fn judge_rows(
    buffer: &mut Buffer,
    packet: &[u8],
    rows: &[u32],
    store: &mut [u8],
) -> Tally
    ensures { RowsJudgeable current buffer.old packet.now (rows_in rows.now) no_tally store.old
        → RowsJudged buffer.old buffer.new packet.now (rows_in rows.now) no_tally result store.old store.new }
{
    let mut tally = tally::no_tally();
    for row in rows.chunks_exact(ROW_WIDTH) {
        tally = judge_row(buffer, tally, packet, row, store);
    }
    tally
}
