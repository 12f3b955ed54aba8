// Whether a buffer is well-formed.
ghost use Rattle.std.specs.Prelude.{◌≡◌, true, ◌^◌, ◌≤◌, ◌<◌};
ghost use Rattle.formats.specs.Formats.{format_of};
ghost use Rattle.buffer_copies.specs.Sizes.{slots as slot_count};
ghost use Rattle.buffer_copies.specs.Pairs.{is_after, order};
ghost use Rattle.buffer_layout.specs.Layout.{unused_zero, assembled};
ghost use Rattle.buffer_layout.specs.WellFormed.{well_formed};
ghost use Rattle.buffer_layout.specs.Checks.{last_kept, class_fine, base_of, start_of, position_of, entries_pass};

use crate::buffer::{Buffer, Fixed};
use crate::columns;
use buffer_copies::order;
use buffer_slots::bits;
use buffer_slots::bits::SLOTS;
use formats::facts;
use formats::facts::FrameTable;
use frame_codes::coding;
use row_tags::tagging;

// The positions of a stretch under half the range of time.
const STRETCH: u64 = 256 * (order::HALF as u64);

// Whether the pair (t, c) is after the pair (h, d).
pub fn pair_after(t: u32, c: u32, h: u32, d: u32) -> bool
    ensures { result ≡ is_after (order t c h d) }
{
    order::side_of(t, c, h, d).is_gt()
}

// Whether the flag is one, and the last pair is kept as zeros or is in range.
fn last_kept(fixed: Fixed) -> bool
    ensures { (result ≡ last_kept fixed) × (result ≡ true → fixed.last_channel < 256) }
{
    match fixed.drawn {
        0 => fixed.last_time == 0 && fixed.last_channel == 0,
        1 => fixed.last_channel < (fixed.settings.channels as u32),
        _ => false,
    }
}

// Whether an entry's class, length and channel are such as these settings allow.
fn class_fine(table: FrameTable, fixed: Fixed, tag: u32, length: u32) -> bool
    requires { table ≡ (format_of fixed.settings.format).table }
    ensures { result ≡ class_fine fixed tag length }
{
    coding::is_allowed(table, tagging::tag_class(tag), length)
        && tagging::tag_channel(tag) < (fixed.settings.channels as u32)
}

// The time from which positions are counted: of the last pair drawn, or of the first entry.
fn base_of(fixed: Fixed, first: u32) -> u32
    ensures { result ≡ base_of fixed first }
{
    if fixed.drawn == 0 {
        return first;
    }
    fixed.last_time
}

// The least position of the first entry: past that of the last pair drawn, if any.
fn start_of(fixed: Fixed) -> u64
    ensures { result ≡ start_of fixed }
{
    if fixed.drawn == 0 {
        return 0;
    }
    (fixed.last_channel as u64) + 1
}

// A pair as a number: how far its time is ahead of a time, then its channel.
fn position(base: u32, time: u32, channel: u32) -> u64
    requires { channel < 256 }
    ensures { (result ≡ position_of base time channel) × (base < 2 ^ 32) × (time < 2 ^ 32) }
{
    256 * (order::ticks_ahead(time, base) as u64) + (channel as u64)
}

// Whether the first n entries pass the tests in turn, and their slots are exactly those marked.
fn entries_pass(
    times: &[u32; SLOTS],
    tags: &[u32; SLOTS],
    lengths: &[u32; SLOTS],
    slots: &[u32; SLOTS],
    occupied: [u64; 3],
    fixed: Fixed,
    n: usize,
) -> bool
    requires { (n ≤ slot_count) × (fixed.last_channel < 256) }
    ensures { result ≡ entries_pass times.now tags.now lengths.now slots.now occupied fixed n }
{
    let held: &[u32] = slots;
    let table = facts::format_of(fixed.settings.format).table;
    let base = base_of(fixed, times[0]);
    let mut least = start_of(fixed);
    let mut seen = [0u64; 3];
    for i in 0..n {
        if !class_fine(table, fixed, tags[i], lengths[i]) {
            return false;
        }
        let at = position(base, times[i], tagging::tag_channel(tags[i]));
        if at < least {
            return false;
        }
        if STRETCH <= at {
            return false;
        }
        least = at + 1;
        let slot = held[i] as usize;
        if !bits::claim(&mut seen, slot) {
            return false;
        }
    }
    bits::same_words(seen, occupied)
}

// Whether the entries from the n-th on are zero.
fn unused_zero(
    times: &[u32; SLOTS],
    tags: &[u32; SLOTS],
    lengths: &[u32; SLOTS],
    slots: &[u32; SLOTS],
    n: usize,
) -> bool
    requires { n ≤ slot_count }
    ensures { result ≡ unused_zero times.now tags.now lengths.now slots.now n }
{
    columns::zero_from(times, n)
        && columns::zero_from(tags, n)
        && columns::zero_from(lengths, n)
        && columns::zero_from(slots, n)
}

// Whether the buffer of these parts is well-formed.
pub fn well_formed(
    times: &[u32; SLOTS],
    tags: &[u32; SLOTS],
    lengths: &[u32; SLOTS],
    slots: &[u32; SLOTS],
    occupied: [u64; 3],
    fixed: Fixed,
) -> bool
    ensures { result ≡ well_formed (assembled times.now tags.now lengths.now slots.now occupied fixed) }
{
    if !last_kept(fixed) {
        return false;
    }
    let n = bits::held_in(occupied);
    unused_zero(times, tags, lengths, slots, n)
        && entries_pass(times, tags, lengths, slots, occupied, fixed, n)
}

impl Buffer {
    // Whether the buffer is well-formed.
    pub fn is_well_formed(&self) -> bool
        ensures { result ≡ well_formed self.now }
    {
        let fixed = Fixed {
            last_time: self.last_time,
            last_channel: self.last_channel,
            drawn: self.drawn,
            settings: self.settings,
        };
        well_formed(
            &self.times,
            &self.tags,
            &self.lengths,
            &self.slots,
            self.occupied,
            fixed,
        )
    }
}
