// What was counted over the whole stream.
use buffer_insert::tally::Tally;
use row_tags::tagging::PRIMARY;
use rtp::refusal::{Fault, Refusal};

// Refusal numbers are below this.
const REFUSALS: usize = 16;

#[derive(Clone, Copy, Default)]
pub(crate) struct Totals {
    pub packets: u64,
    pub refused: u64,
    pub frames: u64,
    pub first_hand: u64,
    pub by_redundancy: u64,
    pub inserted: u64,
    pub repeated: u64,
    pub better: u64,
    pub late: u64,
    pub far: u64,
    pub no_room: u64,
    pub refusals: [u64; REFUSALS],
}

fn add(count: &mut u64, more: u32) {
    *count = count.wrapping_add(more as u64);
}

impl Totals {
    fn add_tally(&mut self, tally: Tally) {
        add(&mut self.inserted, tally.inserted);
        add(&mut self.repeated, tally.repeated);
        add(&mut self.better, tally.better);
        add(&mut self.late, tally.late);
        add(&mut self.far, tally.far);
        add(&mut self.no_room, tally.no_room);
    }

    fn add_refusal(&mut self, why: Refusal) {
        add(&mut self.refused, 1);
        let number = u32::from(why) as usize;
        if number < REFUSALS {
            add(&mut self.refusals[number], 1);
        }
    }

    // The answer to one more packet.
    pub(crate) fn add_packet(&mut self, answer: Result<Tally, Fault>) {
        add(&mut self.packets, 1);
        match answer {
            Ok(tally) => self.add_tally(tally),
            Err(fault) => self.add_refusal(fault.refusal),
        }
    }

    // One more frame drawn, heard first-hand or by redundancy only.
    pub(crate) fn add_frame(&mut self, primary: u32) {
        add(&mut self.frames, 1);
        if primary == PRIMARY as u32 {
            add(&mut self.first_hand, 1);
        } else {
            add(&mut self.by_redundancy, 1);
        }
    }

    // The frames held: by the theorem Count, all that were inserted less all that were drawn.
    pub(crate) fn held(&self) -> u64 {
        self.inserted.wrapping_sub(self.frames)
    }
}
