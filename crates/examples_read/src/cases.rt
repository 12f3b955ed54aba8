// What the lines of a case do.
use crate::example;
use examples_text::script::LINE;
use examples_text::values::ROOM;
use examples_text::{script, values};
use rtp::settings::Settings;

// What is agreed, the words of the area for rows, and the packet's bytes.
#[derive(Drop)]
pub(crate) struct Case {
    settings: Settings,
    words: u32,
    bytes: [u8; ROOM],
}

impl Case {
    pub(crate) fn new() -> Case {
        Case {
            settings: values::no_settings(),
            words: 0,
            bytes: [0; ROOM],
        }
    }

    pub(crate) fn follow(&mut self, line: &[u8; LINE]) {
        if script::is_comment(line) {
            return;
        }
        if script::has(line, b"settings", 4) {
            self.settings = values::settings(line);
        } else if script::has(line, b"area", 1) {
            self.words = values::number(line, 1);
        } else if script::has_from(line, b"case", 1) {
            script::print_label(line);
        } else if script::has_from(line, b"packet", 1) {
            values::clear(&mut self.bytes);
            values::put_bytes(line, 1, &mut self.bytes, 0);
        } else if script::has_from(line, b"at", 2) {
            values::put_bytes(line, 2, &mut self.bytes, values::number(line, 1) as usize);
        } else if script::has(line, b"read", 1) {
            example::read(
                self.settings,
                self.words,
                &self.bytes,
                values::number(line, 1),
            );
        } else {
            script::malformed(line);
        }
    }
}
