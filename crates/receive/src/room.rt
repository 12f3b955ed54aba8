// Room for a packet's frames. A packet can bring more frames than are free, and even more than the buffer has slots (document 02, P12).
use buffer_columns::columns;
use buffer_copies::order;
use buffer_layout::buffer::Buffer;
use buffer_slots::bits;
use buffer_slots::bits::SLOTS;
use formats::frames::NO_DATA;
use read_packet::reading;
use row_tags::tagging;
use rtp::settings::Settings;
use rtp::sizes::{MAX_ROWS, ROW_AREA, ROW_WIDTH};

// The times of a packet's frames that need a slot: neither late nor held.
#[derive(Drop)]
pub(crate) struct Wanted {
    times: [u32; MAX_ROWS],
    count: usize,
}

// The rows of a packet, at the front of the area; none if the packet is refused.
fn read_rows<'a>(
    settings: Settings,
    packet: &[u8],
    area: &'a mut [u32; ROW_AREA],
) -> Option<&'a [u32]> {
    let head = reading::read(settings, packet, area).ok()?;
    area.get(..ROW_WIDTH * head.rows as usize)
}

fn is_late(buffer: &Buffer, time: u32, channel: u32) -> bool {
    buffer.drawn != 0
        && order::side_of(time, channel, buffer.last_time, buffer.last_channel).is_le()
}

fn is_held(buffer: &Buffer, time: u32, channel: u32) -> bool {
    let n = bits::held_in(buffer.occupied);
    columns::find_place(&buffer.times, &buffer.tags, n, time, channel)
        .place
        .is_ok()
}

// Whether a row's frame needs a slot.
fn needs_slot(buffer: &Buffer, time: u32, tag: u32) -> bool {
    let channel = tagging::tag_channel(tag);
    tagging::tag_class(tag) as usize != NO_DATA
        && !is_late(buffer, time, channel)
        && !is_held(buffer, time, channel)
}

// The time of a row whose frame needs a slot.
fn needed_time(buffer: &Buffer, row: &[u32]) -> Option<u32> {
    match row {
        [time, tag, ..] if needs_slot(buffer, *time, *tag) => Some(*time),
        _ => None,
    }
}

impl Wanted {
    // What of a packet needs a slot.
    pub(crate) fn find(buffer: &Buffer, packet: &[u8]) -> Wanted {
        let mut area = [0u32; ROW_AREA];
        let rows = read_rows(buffer.settings, packet, &mut area).unwrap_or(&[]);
        let mut times = [0u32; MAX_ROWS];
        let mut count = 0;
        let needed = rows
            .chunks_exact(ROW_WIDTH)
            .filter_map(|row| needed_time(buffer, row));
        for time in needed {
            if let Some(place) = times.get_mut(count) {
                *place = time;
                count += 1;
            }
        }
        Wanted { times, count }
    }

    // The frames that may be held when these come.
    pub(crate) fn kept(&self) -> usize {
        SLOTS.saturating_sub(self.count)
    }

    // Whether a time comes before all of these: a frame of this time can be drawn, and none of these is late by it.
    pub(crate) fn all_after(&self, time: u32) -> bool {
        self.times
            .iter()
            .take(self.count)
            .all(|wanted| order::is_after(*wanted, time))
    }
}
