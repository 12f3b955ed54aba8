// What the lines of a case do.
use crate::example;
use examples_text::script::LINE;
use examples_text::values::{NUMBERS, ROOM};
use examples_text::{script, values};
use log_lines::printing;
use log_walk::opening::Cursor;
use rtp::settings::Settings;

// What is agreed, the bytes and the words of rows that are given: so many of a room each.
#[derive(Drop)]
pub(crate) struct Case {
    settings: Settings,
    bytes: [u8; ROOM],
    size: usize,
    rows: [u32; NUMBERS],
    words: usize,
}

impl Case {
    pub(crate) fn new() -> Case {
        Case {
            settings: values::no_settings(),
            bytes: [0; ROOM],
            size: 0,
            rows: [0; NUMBERS],
            words: 0,
        }
    }

    // On from the place of the line's first number, with as many frames shown as the second says.
    fn step(&self, line: &[u8; LINE]) {
        let cursor = Cursor {
            settings: self.settings,
            place: values::number(line, 1) as usize,
            count: values::number(line, 2) as usize,
        };
        if let Some(log) = self.bytes.get(..self.size) {
            let _ = printing::print_from(cursor, log);
        }
    }

    // Into an area of as many bytes as the line's number says.
    fn write(&self, line: &[u8; LINE]) {
        let room = values::number(line, 1) as usize;
        if example::AREA < room {
            script::malformed(line);
            return;
        }
        let rows = self.rows.get(..self.words);
        if let (Some(rows), Some(bytes)) = (rows, self.bytes.get(..self.size)) {
            example::write(self.settings, rows, bytes, room);
        }
    }

    pub(crate) fn follow(&mut self, line: &[u8; LINE]) {
        if script::is_comment(line) {
            return;
        }
        if script::has_from(line, b"case", 1) {
            script::print_label(line);
            self.size = 0;
            self.words = 0;
        } else if script::has_from(line, b"bytes", 1) {
            self.size = values::put_bytes(line, 1, &mut self.bytes, self.size);
        } else if script::has_from(line, b"row", 1) {
            self.words = values::put_numbers(line, &mut self.rows, self.words);
        } else if script::has(line, b"settings", 4) {
            self.settings = values::settings(line);
        } else if script::has(line, b"read", 0) {
            example::read(&self.bytes, self.size);
        } else if script::has(line, b"step", 2) {
            self.step(line);
        } else if script::has(line, b"write", 1) {
            self.write(line);
        } else {
            script::malformed(line);
        }
    }
}
