// Two of the three calls on a reorder buffer: new and offer.
ghost use Rattle.std.specs.Prelude.{◌≡◌, true};
ghost use Rattle.rtp.specs.Editions.{current};
ghost use Rattle.buffer_layout.specs.Arrays.{Machine};
ghost use Rattle.buffer_offer.specs.Calls.{new_number, new_call, offer_numbers, offer_call};

use crate::judging;
use buffer_insert::tally::Tally;
use buffer_layout::buffer;
use buffer_layout::buffer::{Answered, Buffer, STORE_SIZE};
use read_packet::reading;
use rtp::refusal::{Fault, Refusal};
use rtp::settings;
use rtp::settings::Settings;
use rtp::sizes::{ROW_AREA, ROW_WIDTH};

// A fresh buffer. Settings out of range are refused, and the buffer is all zero.
pub fn new(settings: Settings) -> Answered<Result<(), Refusal>>
    ensures { record { refusal = new_number result.answer; buffer = result.buffer } ≡ new_call current settings }
{
    if settings::in_range(settings) {
        return Answered {
            answer: Ok(()),
            buffer: buffer::fresh_buffer(settings),
        };
    }
    let none = Settings::default();
    Answered::refused(Refusal::SettingsOutOfRange, buffer::fresh_buffer(none))
}

// An offer to a buffer, which is judged in place: a refusal moves nothing.
fn offer_to(
    buffer: &mut Buffer,
    packet: &[u8],
    rows: &mut [u32],
    store: &mut [u8],
) -> Result<Tally, Fault>
    requires { Machine buffer.old }
    ensures { record { answer = offer_numbers result; buffer = buffer.new; rows = rows.new; store = store.new }
        ≡ offer_call current buffer.old packet.now rows.old store.old }
{
    if !settings::in_range(buffer.settings) {
        return Err(Fault::from(Refusal::SettingsOutOfRange));
    }
    if !buffer.is_well_formed() {
        return Err(Fault::from(Refusal::Malformed));
    }
    if rows.len() < ROW_AREA || store.len() < STORE_SIZE {
        return Err(Fault::from(Refusal::AreaTooShort));
    }
    match reading::read(buffer.settings, packet, rows) {
        Err(fault) => Err(fault),
        Ok(head) => {
            let words = ROW_WIDTH * (head.rows as usize);
            Ok(judging::judge_rows(buffer, packet, &rows[..words], store))
        }
    }
}

// A packet offered: its rows are read into the row area and judged in order; or a refusal, and everything as it stood.
pub fn offer(
    mut buffer: Buffer,
    packet: &[u8],
    rows: &mut [u32],
    store: &mut [u8],
) -> Answered<Result<Tally, Fault>>
    ensures { record { answer = offer_numbers result.answer; buffer = result.buffer; rows = rows.new; store = store.new }
        ≡ offer_call current buffer packet.now rows.old store.old }
{
    let answer = offer_to(&mut buffer, packet, rows, store);
    Answered { answer, buffer }
}
