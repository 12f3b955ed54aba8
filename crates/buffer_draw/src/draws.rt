// The third call on a reorder buffer: draw.
ghost use Rattle.std.specs.Prelude.{◌≡◌, true};
ghost use Rattle.rtp.specs.Editions.{current};
ghost use Rattle.rtp.specs.Ranges.{in_range};
ghost use Rattle.buffer_layout.specs.Layout.{decode};
ghost use Rattle.buffer_draw.specs.ModelCalls.{done, earliest};
ghost use Rattle.buffer_draw.specs.Calls.{draw_numbers, draw_done, draw_call};
ghost use Rattle.buffer_draw.specs.Drawable.{Drawable};

use buffer_columns::{areas, columns};
use buffer_layout::buffer::{Answered, Buffer, SLOT_SIZE, STORE_SIZE};
use buffer_slots::bits;
use row_tags::tagging;
use rtp::refusal::Refusal;
use rtp::settings;

// A frame that is handed out, and whether it was heard first-hand; its bytes are at the front of the draw area.
#[derive(Clone, Copy, Debug, PartialEq, Eq)]
pub struct DrawnFrame {
    pub time: u32,
    pub channel: u32,
    pub class: u32,
    pub length: u32,
    pub primary: u32,
}

// The first of n entries handed out: its frame to the front of the area, its slot free, its pair the last drawn.
fn draw_first(
    mut buffer: Buffer,
    n: usize,
    store: &[u8],
    area: &mut [u8],
) -> Answered<Result<Option<DrawnFrame>, Refusal>>
    requires { Drawable buffer n store.now area.old }
    ensures { record { answer = draw_numbers result.answer; buffer = result.buffer; area = area.new }
        ≡ draw_done buffer area.old (done (earliest store.now (decode buffer).entries)) }
{
    let time = buffer.times[0];
    let channel = tagging::tag_channel(buffer.tags[0]);
    let class = tagging::tag_class(buffer.tags[0]);
    let primary = tagging::tag_mark(buffer.tags[0]);
    let length = buffer.lengths[0];
    let slot = buffer.slots[0] as usize;
    let occupied = buffer.occupied;
    let start = SLOT_SIZE * slot;
    let end = start + (length as usize);
    areas::copy_into(area, 0, &store[start..end]);
    columns::remove_first(&mut buffer.times, n);
    columns::remove_first(&mut buffer.tags, n);
    columns::remove_first(&mut buffer.lengths, n);
    columns::remove_first(&mut buffer.slots, n);
    let next = bits::unmark(occupied, slot);
    buffer.occupied = next;
    buffer.last_time = time;
    buffer.last_channel = channel;
    buffer.drawn = 1;
    Answered {
        answer: Ok(Some(DrawnFrame {
            time,
            channel,
            class,
            length,
            primary,
        })),
        buffer,
    }
}

// A draw under settings in range.
fn draw_checked(
    buffer: Buffer,
    store: &[u8],
    area: &mut [u8],
) -> Answered<Result<Option<DrawnFrame>, Refusal>>
    requires { in_range current buffer.settings ≡ true }
    ensures { record { answer = draw_numbers result.answer; buffer = result.buffer; area = area.new }
        ≡ draw_call current buffer store.now area.old }
{
    if !buffer.is_well_formed() {
        return Answered::refused(Refusal::Malformed, buffer);
    }
    if store.len() < STORE_SIZE || area.len() < SLOT_SIZE {
        return Answered::refused(Refusal::AreaTooShort, buffer);
    }
    let n = bits::held_in(buffer.occupied);
    if n == 0 {
        return Answered {
            answer: Ok(None),
            buffer,
        };
    }
    draw_first(buffer, n, store, area)
}

// The earliest frame handed out, or that the buffer is empty; or a refusal, and everything as it stood.
pub fn draw(
    buffer: Buffer,
    store: &[u8],
    area: &mut [u8],
) -> Answered<Result<Option<DrawnFrame>, Refusal>>
    ensures { record { answer = draw_numbers result.answer; buffer = result.buffer; area = area.new }
        ≡ draw_call current buffer store.now area.old }
{
    let settings = buffer.settings;
    if settings::in_range(settings) {
        return draw_checked(buffer, store, area);
    }
    Answered::refused(Refusal::SettingsOutOfRange, buffer)
}
