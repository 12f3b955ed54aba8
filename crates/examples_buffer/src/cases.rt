// What the lines of a case do.
use crate::example;
use buffer_layout::buffer::{Buffer, STORE_SIZE};
use buffer_offer::calls;
use examples_text::script::LINE;
use examples_text::values::ROOM;
use examples_text::{script, values};

// The buffer and its store, the time of frame-block 0, and the packet: so many bytes of a room.
#[derive(Drop)]
pub(crate) struct Case {
    buffer: Buffer,
    store: [u8; STORE_SIZE],
    base: u32,
    bytes: [u8; ROOM],
    size: usize,
}

impl Case {
    pub(crate) fn new() -> Case {
        Case {
            buffer: calls::new(values::no_settings()).buffer,
            store: [0; STORE_SIZE],
            base: 0,
            bytes: [0; ROOM],
            size: 0,
        }
    }

    fn offer(&mut self) {
        if let Some(packet) = self.bytes.get(..self.size) {
            self.buffer = example::offer(self.buffer, &mut self.store, packet);
        }
    }

    // The numbered packets of the line, each offered.
    fn offer_all(&mut self, line: &[u8; LINE]) {
        for k in 1..=script::count(line) {
            let number = values::small(line, k);
            self.buffer = example::offer_number(self.buffer, &mut self.store, self.base, number);
        }
    }

    // So many draws, in one line.
    fn draw_all(&mut self, n: u32) {
        io::write_all(1, b"draw");
        for _ in 0..n {
            self.buffer = example::draw_number(self.buffer, &self.store, self.base);
        }
        io::write_all(1, b"\n");
    }

    // A line about the buffer.
    fn run(&mut self, line: &[u8; LINE]) {
        if script::has(line, b"settings", 4) {
            self.buffer = calls::new(values::settings(line)).buffer;
        } else if script::has_from(line, b"offer", 1) {
            script::print_words(line);
            self.offer();
        } else if script::has_from(line, b"offer_blocks", 1) {
            self.offer_all(line);
        } else if script::has(line, b"draw", 0) {
            self.buffer = example::draw(self.buffer, &self.store);
        } else if script::has(line, b"draw_blocks", 1) {
            self.draw_all(values::number(line, 1));
        } else {
            script::malformed(line);
        }
    }

    // A line about the packet or the times, or a label; or else about the buffer.
    pub(crate) fn follow(&mut self, line: &[u8; LINE]) {
        if script::is_comment(line) {
            return;
        }
        if script::has_from(line, b"case", 1) {
            script::print_label(line);
        } else if script::has(line, b"base", 1) {
            self.base = values::number(line, 1);
        } else if script::has_from(line, b"packet", 1) {
            self.size = values::put_bytes(line, 1, &mut self.bytes, 0);
        } else if script::has_from(line, b"bytes", 1) {
            self.size = values::put_bytes(line, 1, &mut self.bytes, self.size);
        } else if script::has_from(line, b"text", 1) {
            self.size = values::put_text(line, 1, &mut self.bytes, self.size);
        } else {
            self.run(line);
        }
    }
}
