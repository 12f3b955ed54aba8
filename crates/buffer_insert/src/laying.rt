// Frames laid into the buffer and the store.
ghost use Rattle.std.specs.Prelude.{◌≡◌, true, false, length};
ghost use Rattle.buffer_slots.specs.Bits.{lowest_free};
ghost use Rattle.buffer_insert.specs.Laying.{can_replace, Replaceable, Replaced, NotReplaced, can_insert, Insertable, Laid, NotLaid};

use buffer_columns::{areas, columns};
use buffer_copies::compare;
use buffer_copies::verdict::Verdict;
use buffer_layout::buffer::{Buffer, SLOT_SIZE, STORE_SIZE};
use buffer_slots::bits;
use buffer_slots::bits::SLOTS;
use row_tags::tagging;

// The number of slots, and the size of one, as the columns hold them.
const COUNT: u32 = SLOTS as u32;

const SIZE: u32 = SLOT_SIZE as u32;

// A frame that is offered, its bytes aside: the first two words of its row.
#[derive(Clone, Copy, Debug, PartialEq, Eq)]
pub struct FrameHead {
    pub time: u32,
    pub tag: u32,
}

// Whether a frame of this size can replace the one held at a place: there are such a place and such a slot, both frames fit into it, and a store of this length holds every slot.
fn can_replace(buffer: &Buffer, at: usize, size: usize, room: usize) -> bool
    ensures test { result ≡ can_replace buffer.now.lengths buffer.now.slots at size room }
    ensures fits { result ≡ true → Replaceable buffer.now.lengths buffer.now.slots at size room }
{
    at < SLOTS
        && buffer.slots[at] < COUNT
        && buffer.lengths[at] <= SIZE
        && size <= SLOT_SIZE
        && STORE_SIZE <= room
}

// A frame whose pair is held, as the entry at a place: a better copy replaces it in its slot, and the entry is marked if either is.
// Where there is no such entry, or no room for the frame, everything stays as it stood.
pub fn replace_copy(
    buffer: &mut Buffer,
    at: usize,
    head: FrameHead,
    frame: &[u8],
    store: &mut [u8],
) -> Verdict
    ensures replaced { can_replace buffer.old.lengths buffer.old.slots at (length frame.now) (length store.old) ≡ true
        → Replaced head frame.now buffer.old buffer.new at store.old store.new result }
    ensures not_replaced { can_replace buffer.old.lengths buffer.old.slots at (length frame.now) (length store.old) ≡ false
        → NotReplaced buffer.old buffer.new store.old store.new result }
{
    if !can_replace(buffer, at, frame.len(), store.len()) {
        return Verdict::NoRoom;
    }
    let start = SLOT_SIZE * (buffer.slots[at] as usize);
    let end = start + (buffer.lengths[at] as usize);
    let held = buffer.tags[at];
    if compare::is_better(
        tagging::tag_class(head.tag),
        frame,
        tagging::tag_class(held),
        &store[start..end],
    ) {
        buffer.tags[at] = tagging::join_mark(head.tag, held);
        buffer.lengths[at] = frame.len() as u32;
        areas::copy_into(store, start, frame);
        return Verdict::Better;
    }
    buffer.tags[at] = tagging::join_mark(held, head.tag);
    Verdict::Repeated
}

// Whether a frame of this size can be inserted at a place of n entries, into a slot: there are such a slot and such a place, the frame fits, and a store of this length holds every slot.
fn can_insert(slot: usize, n: usize, at: usize, size: usize, room: usize) -> bool
    ensures test { result ≡ can_insert slot n at size room }
    ensures fits { result ≡ true → Insertable slot n at size room }
{
    slot < SLOTS && n < SLOTS && at <= n && size <= SLOT_SIZE && STORE_SIZE <= room
}

// A frame whose pair is not held, laid into the lowest free slot, its entry at a place of n.
// Where there is no such slot or place, or no room for the frame, everything stays as it stood.
pub fn insert_copy(
    buffer: &mut Buffer,
    n: usize,
    at: usize,
    head: FrameHead,
    frame: &[u8],
    store: &mut [u8],
)
    ensures laid { can_insert (lowest_free buffer.old.occupied) n at (length frame.now) (length store.old) ≡ true
        → Laid head frame.now buffer.old buffer.new n at store.old store.new }
    ensures not_laid { can_insert (lowest_free buffer.old.occupied) n at (length frame.now) (length store.old) ≡ false
        → NotLaid buffer.old buffer.new store.old store.new }
{
    let slot = bits::lowest_free(buffer.occupied);
    if !can_insert(slot, n, at, frame.len(), store.len()) {
        return;
    }
    let next = bits::mark(buffer.occupied, slot);
    buffer.occupied = next;
    columns::insert_at(&mut buffer.times, n, at, head.time);
    columns::insert_at(&mut buffer.tags, n, at, head.tag);
    columns::insert_at(&mut buffer.lengths, n, at, frame.len() as u32);
    columns::insert_at(&mut buffer.slots, n, at, slot as u32);
    areas::copy_into(store, SLOT_SIZE * slot, frame);
}
