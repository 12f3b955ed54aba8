// The stream through a reorder buffer: frames are drawn so that a packet's have room, as far as the order allows, then it is offered.
use crate::gaps::Gaps;
use crate::room::Wanted;
use crate::sources::Sources;
use crate::totals::Totals;
use crate::{RECEIVE, logging, printing};
use buffer_draw::draws;
use buffer_draw::draws::DrawnFrame;
use buffer_layout::buffer::{Buffer, SLOT_SIZE, STORE_SIZE};
use buffer_offer::calls;
use buffer_slots::bits::SLOTS;
use console::stream;
use console_text::lines::NotWritten;
use console_text::{STDERR_FILENO, STDOUT_FILENO};
use formats::frames;
use rtp::settings::Settings;
use rtp::sizes::ROW_AREA;
use std::io::{Input, Read};

// The frames kept between packets, for those that are still to come between them.
const KEPT: usize = 64;

// The buffer, the ticks of a frame-block, whether the frames go to a log, and what was counted.
#[derive(Drop)]
struct State {
    buffer: Buffer,
    step: u32,
    log: bool,
    totals: Totals,
    gaps: Gaps,
    sources: Sources,
}

fn zero_store() -> [u8; STORE_SIZE] {
    [0; STORE_SIZE]
}

impl State {
    // Where the words go that are not about a frame: standard output is the log's, if there is one.
    fn words(&self) -> i32 {
        if self.log {
            STDERR_FILENO
        } else {
            STDOUT_FILENO
        }
    }

    // A frame drawn, so that the buffer is this one now: counted, and to the log, or printed after the gap before it, if there is one.
    fn hand_out(
        &mut self,
        buffer: Buffer,
        frame: DrawnFrame,
        bytes: &[u8],
    ) -> Result<(), NotWritten> {
        let last = self.gaps.last;
        let missing = self.gaps.missing_before(frame.time, self.step);
        self.buffer = buffer;
        self.totals.add_frame(frame.primary);
        self.gaps.add(frame.time, missing);
        if self.log {
            return logging::write_frame(self.buffer.settings, frame, bytes);
        }
        if let Some(before) = last {
            printing::print_gap(before, frame.time, missing)?;
        }
        printing::print_frame(frame, bytes)
    }

    // The earliest frame drawn and handed out, if it comes before all that are wanted; answers whether it does. Drawing is never refused here, nor the
    // buffer empty: it holds a frame, and the areas have their sizes.
    fn draw(&mut self, wanted: Option<&Wanted>, store: &[u8]) -> Result<bool, NotWritten> {
        let mut area = [0u8; SLOT_SIZE];
        let drawn = draws::draw(self.buffer, store, &mut area);
        let answer = drawn.answer;
        if let Ok(Some(frame)) = answer {
            let comes_first = match wanted {
                Some(wanted) => wanted.all_after(frame.time),
                None => true,
            };
            if comes_first {
                self.hand_out(drawn.buffer, frame, &area)?;
                return Ok(true);
            }
        }
        Ok(false)
    }

    // Draws until no more than `kept` frames are held, or none comes before all that are wanted. At most all slots are held.
    fn draw_down(
        &mut self,
        store: &[u8],
        kept: usize,
        wanted: Option<&Wanted>,
    ) -> Result<(), NotWritten> {
        for _ in 0..SLOTS {
            if self.totals.held() <= kept as u64 || !self.draw(wanted, store)? {
                break;
            }
        }
        Ok(())
    }

    // Draws before a packet is offered until those of its frames that need a slot have one, but no frame that one of them could come before: that one would
    // be late. What has no room then is counted as such.
    fn make_room(&mut self, packet: &[u8], store: &[u8]) -> Result<(), NotWritten> {
        let wanted = Wanted::find(&self.buffer, packet);
        self.draw_down(store, wanted.kept(), Some(&wanted))
    }

    // A packet offered, counted, and printed if it is refused.
    fn offer(&mut self, packet: &[u8], store: &mut [u8]) -> Result<(), NotWritten> {
        let mut rows = [0u32; ROW_AREA];
        let offered = calls::offer(self.buffer, packet, &mut rows, store);
        let answer = offered.answer;
        self.buffer = offered.buffer;
        self.totals.add_packet(answer);
        match answer {
            Ok(_) => {
                self.sources.add(self.totals.packets, packet);
                Ok(())
            }
            Err(fault) => printing::print_fault(self.words(), self.totals.packets, fault),
        }
    }

    // Room made for a packet, which is offered, and no more frames kept than need be. A packet is offered even where the output does not take the frames
    // drawn for it.
    fn pass_on(&mut self, packet: &[u8], store: &mut [u8]) -> Result<(), NotWritten> {
        let made = self.make_room(packet, store);
        let offered = self.offer(packet, store);
        made?;
        offered?;
        self.draw_down(store, KEPT, None)
    }

    // All packets, up to a number that no stream reaches.
    fn receive_packets(
        &mut self,
        input: &mut impl Read,
        store: &mut [u8],
    ) -> Result<(), NotWritten> {
        let mut area = io::large_buffer();
        for _ in 0..u64::MAX {
            let number = self.totals.packets.wrapping_add(1);
            let Some(packet) = stream::next(input, RECEIVE, number, &mut area) else {
                break;
            };
            let passed = self.pass_on(packet, store);
            printing::say_progress(&self.totals);
            passed?;
        }
        Ok(())
    }

    // All packets, the frames that are left, and the summary; between the log's start and its end, if there is one.
    fn receive_stream(&mut self, input: &mut impl Read) -> Result<(), NotWritten> {
        let mut store = zero_store();
        if self.log {
            logging::write_settings(self.buffer.settings)?;
        }
        self.receive_packets(input, &mut store)?;
        self.draw_down(&store, 0, None)?;
        if self.log {
            logging::write_end(self.totals.frames)?;
        }
        printing::print_summary(self.words(), &self.totals, &self.gaps, &self.sources)
    }
}

// A buffer for the settings, and the stream through it. The settings are in range, so that a buffer is never refused.
pub(crate) fn receive(rt: &impl Input, asked: Settings, log: bool) -> Result<(), NotWritten> {
    let fresh = calls::new(asked);
    let answer = fresh.answer;
    match answer {
        Ok(()) => {
            let mut state = State {
                buffer: fresh.buffer,
                step: frames::step_of(asked.format),
                log,
                totals: Totals::default(),
                gaps: Gaps::default(),
                sources: Sources::default(),
            };
            let mut input = rt.reader();
            state.receive_stream(&mut input)
        }
        Err(_) => Ok(()),
    }
}
