// Columns of a buffer.
ghost use Rattle.std.specs.Prelude.{◌≡◌, ◌≤◌};
ghost use Rattle.buffer_copies.specs.Sizes.{slots};
ghost use Rattle.buffer_layout.specs.Columns.{fits_from, within_from};
ghost use Rattle.buffer_columns.specs.Bounds.{used as used_of, insertion, removal};
ghost use Rattle.buffer_columns.specs.Places.{place_from, Parted, halving, place_numbers, search_numbers, most_compared};

use buffer_copies::order;
use buffer_slots::bits::SLOTS;
use row_tags::tagging;
use std::cmp::Ordering;

// Where a pair is held, or in Err where it belongs; and how many entries were compared with the pair to find that.
#[derive(Clone, Copy, Debug, PartialEq, Eq)]
pub struct Search {
    pub place: Result<usize, usize>,
    pub compared: usize,
}

// How many values of a column are in use: no more than it has.
fn used(n: usize) -> usize
    ensures { result ≡ used_of n }
{
    n.min(SLOTS)
}

// A value at a place of a column with n in use; those from there on move up by one.
pub fn insert_at(column: &mut [u32; SLOTS], n: usize, at: usize, value: u32)
    ensures { column.new ≡ insertion column.old n at value }
{
    if n < at || SLOTS <= n {
        return;
    }
    let values: &mut [u32] = column;
    values.copy_within(at..n, at + 1);
    values[at] = value;
}

// The column without its first of n values; a zero comes in after the others.
pub fn remove_first(column: &mut [u32; SLOTS], n: usize)
    ensures { column.new ≡ removal column.old n }
{
    if n == 0 || SLOTS < n {
        return;
    }
    let values: &mut [u32] = column;
    values.copy_within(1..n, 0);
    values[n - 1] = 0;
}

// The place of a pair among the first n entries, by halving the range in which it lies.
pub fn find_place(
    times: &[u32; SLOTS],
    tags: &[u32; SLOTS],
    n: usize,
    time: u32,
    channel: u32,
) -> Search
    ensures { (search_numbers result ≡ search_numbers (halving times.now tags.now time channel (used_of n)))
        × (Parted times.now tags.now time channel (used_of n)
        → place_numbers result.place ≡ place_numbers (place_from times.now tags.now time channel (used_of n) 0)) × (result.compared ≤ most_compared) }
{
    let mut low = 0;
    let mut high = used(n);
    let mut compared = 0;
    let place = loop {
        let width = high - low;
        if width < 1 {
            break Err(low);
        }
        let middle = low + width / 2;
        let c = tagging::tag_channel(tags[middle]);
        compared += 1;
        match order::side_of(time, channel, times[middle], c) {
            Ordering::Less => {
                high = middle;
            }
            Ordering::Equal => {
                break Ok(middle);
            }
            Ordering::Greater => {
                low = middle + 1;
            }
        }
    };
    Search { place, compared }
}

// Whether the first n times are all less than half the range ahead of a time.
fn all_within(times: &[u32; SLOTS], n: usize, time: u32) -> bool
    requires { n ≤ slots }
    ensures { result ≡ within_from times.now time n 0 }
{
    times[..n]
        .iter()
        .all(|held| order::ticks_ahead(*held, time) < order::HALF)
}

// Whether the first n times and another fit in a stretch of less than half the range.
pub fn in_stretch(times: &[u32; SLOTS], n: usize, time: u32) -> bool
    ensures { result ≡ fits_from times.now time (used_of n) }
{
    let count = used(n);
    count == 0 || order::ticks_ahead(time, times[0]) < order::HALF || all_within(times, count, time)
}
