// What the lines of a case do.
use crate::example;
use examples_text::script::LINE;
use examples_text::values::NUMBERS;
use examples_text::{script, values};
use rtp::settings::Settings;
use rtp::sizes::{ROW_AREA, ROW_WIDTH};

// The room for rows, in words: one row more than a packet has.
const LIST: usize = ROW_AREA + ROW_WIDTH;

// What is agreed, the mode request, and the rows: so many words of a room.
#[derive(Drop)]
pub(crate) struct Case {
    settings: Settings,
    mode_request: u8,
    rows: [u32; LIST],
    words: usize,
}

// The numbers of all words after the first.
fn numbers_of(line: &[u8; LINE]) -> [u32; NUMBERS] {
    let mut numbers = [0; NUMBERS];
    values::put_numbers(line, &mut numbers, 0);
    numbers
}

impl Case {
    pub(crate) fn new() -> Case {
        Case {
            settings: values::no_settings(),
            mode_request: 0,
            rows: [0; LIST],
            words: 0,
        }
    }

    // The line's numbers laid after the rows' words.
    fn put_row(&mut self, line: &[u8; LINE]) {
        let numbers = numbers_of(line);
        for k in 0..script::count(line) {
            let Some(word) = self.rows.get_mut(self.words) else {
                script::malformed(line);
                return;
            };
            if let Some(number) = numbers.get(k) {
                *word = *number;
            }
            self.words += 1;
        }
    }

    // The last row once more, so many ticks later.
    fn repeat_row(&mut self, ticks: u32) {
        let end = self.words;
        if end < ROW_WIDTH || LIST - ROW_WIDTH < end {
            return;
        }
        self.rows.copy_within(end - ROW_WIDTH..end, end);
        self.rows[end] = self.rows[end].wrapping_add(ticks);
        self.words = end + ROW_WIDTH;
    }

    // The last row so many times more, each so many ticks after the one before.
    fn repeat(&mut self, times: u32, ticks: u32) {
        for _ in 0..times {
            self.repeat_row(ticks);
        }
    }

    fn write_payload(&self) {
        if let Some(rows) = self.rows.get(..self.words) {
            example::payload(self.settings, self.mode_request, rows);
        }
    }

    // By the line's counts.
    fn write_packet(&self, line: &[u8; LINE]) {
        let numbers = numbers_of(line);
        let counts = numbers.get(..script::count(line));
        if let (Some(counts), Some(rows)) = (counts, self.rows.get(..self.words)) {
            example::packet(self.settings, self.mode_request, counts, rows);
        }
    }

    pub(crate) fn follow(&mut self, line: &[u8; LINE]) {
        if script::is_comment(line) {
            return;
        }
        if script::has_from(line, b"case", 1) {
            script::print_label(line);
            self.words = 0;
        } else if script::has_from(line, b"row", 1) {
            self.put_row(line);
        } else if script::has(line, b"repeat", 2) {
            self.repeat(values::number(line, 1), values::number(line, 2));
        } else if script::has(line, b"settings", 4) {
            self.settings = values::settings(line);
        } else if script::has(line, b"request", 1) {
            self.mode_request = values::small(line, 1);
        } else if script::has(line, b"payload", 0) {
            self.write_payload();
        } else if script::has_from(line, b"packet", 0) {
            self.write_packet(line);
        } else {
            script::malformed(line);
        }
    }
}
