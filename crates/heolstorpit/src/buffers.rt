// hsp_new, hsp_offer and hsp_draw: the calls on a reorder buffer.
ghost use Rattle.std.specs.Prelude.{◌≡◌};
ghost use Rattle.rtp.specs.Editions.{current};
ghost use Rattle.buffer_offer.specs.Calls.{new_call, offer_call};
ghost use Rattle.buffer_draw.specs.Calls.{draw_call};
ghost use Rattle.heolstorpit.specs.Answers.{fresh_answer, offered_answer, drawn_answer};

use buffer_draw::draws;
use buffer_layout::buffer::Buffer;
use buffer_offer::calls;
use c_answers::buffer_answers;
use rtp::settings::Settings;

// hsp_fresh: the refusal number or 0.
#[repr(C)]
#[derive(Clone, Copy)]
pub struct HspFresh {
    pub refusal: u32,
    pub buffer: Buffer,
}

// hsp_offered: the refusal number or 0; for 6 to 10 the place of the fault as an offset in the packet, else 0; then how often each verdict was given, zeros
// on refusal.
#[repr(C)]
#[derive(Clone, Copy)]
pub struct HspOffered {
    pub refusal: u32,
    pub offset: u32,
    pub late: u32,
    pub far: u32,
    pub repeated: u32,
    pub better: u32,
    pub no_room: u32,
    pub inserted: u32,
    pub buffer: Buffer,
}

// hsp_drawn: the refusal number or 0, 1 if no frame is held, and the frame and whether it was heard first-hand, or zeros. C has four
// bytes of padding before the buffer; named, they spare two copies of it (docs/PERFORMANCE.md).
#[repr(C)]
#[derive(Clone, Copy)]
pub struct HspDrawn {
    pub refusal: u32,
    pub empty: u32,
    pub time: u32,
    pub channel: u32,
    pub frame_class: u32,
    pub length: u32,
    pub primary: u32,
    pub padding: u32,
    pub buffer: Buffer,
}

#[unsafe(no_mangle)]
pub extern "C" fn hsp_new(settings: Settings) -> HspFresh
    ensures { fresh_answer result ≡ new_call current settings }
{
    let fresh = calls::new(settings);
    let buffer = fresh.buffer;
    let answer = fresh.answer;
    HspFresh {
        refusal: buffer_answers::new_number(answer),
        buffer,
    }
}

#[unsafe(no_mangle)]
pub extern "C" fn hsp_offer(
    buffer: Buffer,
    packet: &[u8],
    rows: &mut [u32],
    store: &mut [u8],
) -> HspOffered
    ensures { record { answer = offered_answer result; buffer = result.buffer; rows = rows.new; store = store.new } ≡
        offer_call current buffer packet.now rows.old store.old }
{
    let offered = calls::offer(buffer, packet, rows, store);
    let left = offered.buffer;
    let answer = offered.answer;
    let fields = buffer_answers::offer_fields(answer);
    HspOffered {
        refusal: fields.refusal,
        offset: fields.offset as u32,
        late: fields.late,
        far: fields.far,
        repeated: fields.repeated,
        better: fields.better,
        no_room: fields.no_room,
        inserted: fields.inserted,
        buffer: left,
    }
}

#[unsafe(no_mangle)]
pub extern "C" fn hsp_draw(buffer: Buffer, store: &[u8], area: &mut [u8]) -> HspDrawn
    ensures { record { answer = drawn_answer result; buffer = result.buffer; area = area.new } ≡
        draw_call current buffer store.now area.old }
{
    let drawn = draws::draw(buffer, store, area);
    let left = drawn.buffer;
    let answer = drawn.answer;
    let fields = buffer_answers::draw_fields(answer);
    HspDrawn {
        refusal: fields.refusal,
        empty: fields.empty,
        time: fields.time,
        channel: fields.channel,
        frame_class: fields.frame_class,
        length: fields.length,
        primary: fields.primary,
        padding: 0,
        buffer: left,
    }
}
