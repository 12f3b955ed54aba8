// A line of output, gathered in memory and then written at once. What has no room in it is left out.
ghost use Rattle.std.specs.Prelude.{◌/◌, ◌%◌, ◌<◌, ◌≤◌, ◌≡◌, [], ◌∷◌, ◌++◌, length, take};
ghost use Rattle.io.specs.Digits.{hex_digit_ascii as glyph_of};
ghost use Rattle.console_text.specs.Lines.{line_size, gathered, decimal, counted, hexadecimal, bytes_of, Continued};

use std::fmt;
use std::fmt::{Display, Write};
use std::marker::Model;

// The bytes of the longest line.
pub const LINE: usize = 1024;

// The output did not take all that was to be written.
#[derive(Clone, Copy, Debug, PartialEq, Eq)]
pub struct NotWritten;

impl From<fmt::Error> for NotWritten {
    fn from(_error: fmt::Error) -> NotWritten {
        NotWritten
    }
}

// All of the bytes written.
pub fn write(fd: i32, bytes: &[u8]) -> Result<(), NotWritten> {
    if io::write_all(fd, bytes) {
        return Ok(());
    }
    Err(NotWritten)
}

#[derive(Drop)]
pub struct Line {
    bytes: [u8; LINE],
    length: usize,
}

// Clauses see the bytes that the line holds.
impl Model for Line {
    ghost use Rattle.std.specs.Prelude.{ℕ, ◌≤◌, List, take};
    ghost use Rattle.console_text.specs.Lines.{line_size};

    ghost Value = { List ℕ };

    ghost view = { λ l. take l.length l.bytes };

    ghost invariant = { λ l. l.length ≤ line_size };
}

fn glyph(digit: u8) -> u8
    requires { digit < 16 }
    ensures { result ≡ glyph_of digit }
{
    if digit < 10 {
        b'0' + digit
    } else {
        b'a' - 10 + digit
    }
}

impl Line {
    pub fn new() -> Line
        ensures { result ≡ [] }
    {
        Line {
            bytes: [0; LINE],
            length: 0,
        }
    }

    // A line that holds the first `at` bytes of an area, or all.
    pub fn of(area: &[u8; LINE], at: usize) -> Line
        ensures { result ≡ take at area.now }
    {
        Line {
            bytes: *area,
            length: at.min(LINE),
        }
    }

    // The bytes that the line holds.
    pub fn bytes(&self) -> &[u8]
        ensures { result.now ≡ self.now }
    {
        &self.bytes[..self.length]
    }

    // A text after what the line holds.
    pub fn put(&mut self, text: &[u8])
        ensures line_after { self.new ≡ gathered self.old text.now }
        ensures continued { Continued self.old self.new }
        ensures fits { length self.new ≤ line_size }
    {
        let start = self.length;
        let n = text.len().min(LINE - start);
        self.bytes[start..start + n].copy_from_slice(&text[..n]);
        self.length = start + n;
    }

    // A text and a number.
    pub fn put_number(&mut self, text: &[u8], n: u64)
        ensures { self.new ≡ gathered self.old (text.now ++ decimal n) }
    {
        let mut digits = [0u8; 20];
        let k = io::decimal(n, &mut digits);
        self.put(text);
        self.put(&digits[..k]);
    }

    // A number with the word for one or for several.
    pub fn put_count(&mut self, n: u64, one: &[u8], several: &[u8])
        ensures { self.new ≡ gathered self.old (counted n one.now several.now) }
    {
        self.put_number(b"", n);
        self.put(if n == 1 { one } else { several });
    }

    // Bytes in hexadecimal.
    pub fn put_hex(&mut self, bytes: &[u8])
        ensures { self.new ≡ gathered self.old (hexadecimal bytes.now) }
    {
        self.put(b"");
        for byte in bytes {
            self.put(&[glyph(*byte / 16), glyph(*byte % 16)]);
        }
    }

    // A 32-bit number in eight hexadecimal digits.
    pub fn put_word(&mut self, word: u32)
        ensures { self.new ≡ gathered self.old (hexadecimal (bytes_of word)) }
    {
        self.put_hex(&word.to_be_bytes());
    }

    // The line and its end written, with one call where the system takes them at once. The rules leave open whether it does.
    pub fn print(&mut self, fd: i32) -> Result<(), NotWritten>
        ensures { self.new ≡ gathered self.old (10 ∷ []) }
    {
        self.put(b"\n");
        write(fd, self.bytes())
    }
}

// For `write!`, which lays the bytes that its values say that they print. What has no room is left out here too, and is no error.
impl Write for Line {
    ghost write_str_gives = { λ line text after. after ≡ gathered line text };

    fn write_str(&mut self, text: &str) -> fmt::Result {
        self.put(text.as_bytes());
        Ok(())
    }
}

// Words on a line of their own.
pub fn print(fd: i32, words: impl Display + Drop) -> Result<(), NotWritten> {
    let mut line = Line::new();
    line.write_fmt(words)?;
    line.print(fd)
}
