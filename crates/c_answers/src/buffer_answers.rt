// What hsp_new, hsp_offer and hsp_draw answer, but for the buffer.
ghost use Rattle.std.specs.Prelude.{◌≡◌};
ghost use Rattle.buffer_offer.specs.Calls.{new_number, offer_numbers};
ghost use Rattle.buffer_draw.specs.Calls.{draw_numbers};
ghost use Rattle.c_answers.specs.Fields.{offer_fields, draw_fields};

use buffer_draw::draws::DrawnFrame;
use buffer_insert::tally::Tally;
use rtp::refusal::{Fault, Refusal};

// The refusal number or 0.
pub fn new_number(answer: Result<(), Refusal>) -> u32
    ensures { result ≡ new_number answer }
{
    match answer {
        Ok(()) => 0,
        Err(reason) => u32::from(reason),
    }
}

// hsp_offered, the place of the fault not yet a word.
#[derive(Clone, Copy, Debug, PartialEq, Eq)]
pub struct OfferFields {
    pub refusal: u32,
    pub offset: usize,
    pub late: u32,
    pub far: u32,
    pub repeated: u32,
    pub better: u32,
    pub no_room: u32,
    pub inserted: u32,
}

pub fn offer_fields(answer: Result<Tally, Fault>) -> OfferFields
    ensures { offer_fields result ≡ offer_numbers answer }
{
    match answer {
        Ok(tally) => OfferFields {
            refusal: 0,
            offset: 0,
            late: tally.late,
            far: tally.far,
            repeated: tally.repeated,
            better: tally.better,
            no_room: tally.no_room,
            inserted: tally.inserted,
        },
        Err(fault) => OfferFields {
            refusal: u32::from(fault.refusal),
            offset: fault.offset,
            late: 0,
            far: 0,
            repeated: 0,
            better: 0,
            no_room: 0,
            inserted: 0,
        },
    }
}

// hsp_drawn.
#[derive(Clone, Copy, Debug, PartialEq, Eq)]
pub struct DrawFields {
    pub refusal: u32,
    pub empty: u32,
    pub time: u32,
    pub channel: u32,
    pub frame_class: u32,
    pub length: u32,
    pub primary: u32,
}

pub fn draw_fields(answer: Result<Option<DrawnFrame>, Refusal>) -> DrawFields
    ensures { draw_fields result ≡ draw_numbers answer }
{
    match answer {
        Ok(Some(frame)) => DrawFields {
            refusal: 0,
            empty: 0,
            time: frame.time,
            channel: frame.channel,
            frame_class: frame.class,
            length: frame.length,
            primary: frame.primary,
        },
        Ok(None) => DrawFields {
            refusal: 0,
            empty: 1,
            time: 0,
            channel: 0,
            frame_class: 0,
            length: 0,
            primary: 0,
        },
        Err(reason) => DrawFields {
            refusal: u32::from(reason),
            empty: 0,
            time: 0,
            channel: 0,
            frame_class: 0,
            length: 0,
            primary: 0,
        },
    }
}
