// A program's arguments: four numbers, the settings, which a word may follow.
ghost use Rattle.std.specs.Prelude.{◌≡◌, [], ◌∷◌};
ghost use Rattle.io.specs.Counts.{IsPrefixLen};
ghost use Rattle.console_text.specs.Lines.{gathered};
ghost use Rattle.console.specs.Answers.{InRange, WordSized};

use console_text::lines::Line;
use console_text::{STDERR_FILENO, STDOUT_FILENO, lines, numbers};
use rtp::settings;
use rtp::settings::Settings;
use std::env::{Env, FillError};
use std::fmt::{Display, Write};
use std::io::Error;

// The bytes of the longest argument that is read.
const LONGEST: usize = 16;

// What the four numbers are.
const NUMBERS: &[u8] =
    b"  FORMAT      payload format: 1 = G.719 basic, 2 = G.719 interleaved, 3 = GSM-HR, 4 = AMR, 5 = AMR-WB
  CHANNELS    1 to 6; only 1 for GSM-HR, AMR and AMR-WB
  TYPE        payload type of this format, 0 to 127
  REDUNDANCY  payload type of redundancy (RFC 2198), 0 to 127 and not TYPE; 128 = none
  PACKETS     RTP packets in the framing of RFC 4571: each behind its length in bytes, 16 bits, big-endian
";

// A program's name, and what it does.
#[derive(Clone, Copy)]
pub struct Program<'a> {
    pub name: &'a [u8],
    pub purpose: &'a [u8],
}

// Argument i at the front of the area; answers how many bytes it has. A missing argument and one that is longer than the area come as an empty text.
fn fill(rt: &impl Env, i: usize, area: &mut [u8]) -> usize
    ensures { IsPrefixLen result area.new }
{
    match rt.arg(i, area) {
        Ok(n) => n,
        Err(_) => 0,
    }
}

// Whether there is an argument i.
pub fn is_there(rt: &impl Env, i: usize) -> bool {
    let mut text = [0u8; LONGEST];
    let answer = rt.arg(i, &mut text);
    !matches!(answer, Err(FillError::NotPresent))
}

// Whether argument i is this word, of 1 to 16 bytes. What the arguments are is the operating system's answer, and the rules leave it open; but
// other words are none.
pub fn is_word(rt: &impl Env, i: usize, word: &[u8]) -> bool
    ensures { WordSized result word.now }
{
    let mut text = [0u8; LONGEST];
    let n = fill(rt, i, &mut text);
    if n == 0 {
        return false;
    }
    &text[..n] == word
}

// Whether there are four arguments, or five and the last is the word.
fn are_four(rt: &impl Env, word: &[u8]) -> bool {
    if is_there(rt, 5) {
        return is_word(rt, 5, word) && !is_there(rt, 6);
    }
    is_there(rt, 4)
}

impl<'a> Program<'a> {
    // How the program is called, with which arguments, and what it does. Whether the output takes it is not asked, here and below.
    pub fn print_call(self, fd: i32, arguments: &[u8]) {
        let mut line = Line::new();
        line.put(b"usage: ");
        line.put(self.name);
        line.put(arguments);
        let _ = line.print(fd);
        let _ = lines::write(fd, self.purpose);
    }

    // .. with four numbers.
    fn print_usage(self, fd: i32) {
        self.print_call(fd, b" FORMAT CHANNELS TYPE REDUNDANCY < PACKETS");
        let _ = lines::write(fd, NUMBERS);
    }

    // A line that begins with the program's name.
    pub fn line(self) -> Line
        ensures { result ≡ gathered (gathered [] self.entry.name.now) (58 ∷ 32 ∷ []) }
    {
        let mut line = Line::new();
        line.put(self.name);
        line.put(b": ");
        line
    }

    // Words to standard error, behind the program's name.
    pub fn say(self, words: impl Display + Drop) {
        let mut line = self.line();
        let _ = line.write_fmt(words);
        let _ = line.print(STDERR_FILENO);
    }

    // .. of which the first are bytes.
    pub fn say_fault(self, subject: &[u8], fault: &[u8]) {
        let mut line = self.line();
        line.put(subject);
        line.put(fault);
        let _ = line.print(STDERR_FILENO);
    }

    // Why standard input cannot be read.
    pub fn say_failed(self, why: Error) {
        self.say(format_args!("standard input: {why}"));
    }

    // .. and that standard output did not take all.
    pub fn say_not_written(self) {
        self.say("standard output: not all is written");
    }

    // What is wrong with the arguments, and how the program is called.
    fn complain(self, fault: impl Display + Drop) {
        self.say(fault);
        self.print_usage(STDERR_FILENO);
    }

    // Argument i; it says so if it is no number. A missing argument and one of more than 16 bytes come as an empty text, which is none.
    fn argument(self, rt: &impl Env, i: usize, name: &str) -> Option<u8> {
        let mut text = [0u8; LONGEST];
        let n = fill(rt, i, &mut text);
        let value = numbers::parse(&text[..n]);
        if value.is_none() {
            self.complain(format_args!("{name} is not a number from 0 to 255"));
        }
        value
    }

    // The four numbers, up to the first that is none.
    fn read_four(self, rt: &impl Env) -> Option<Settings>
        ensures { InRange result }
    {
        let agreed = Settings {
            format: self.argument(rt, 1, "FORMAT")?,
            channels: self.argument(rt, 2, "CHANNELS")?,
            payload_type: self.argument(rt, 3, "TYPE")?,
            redundancy_type: self.argument(rt, 4, "REDUNDANCY")?,
        };
        if settings::in_range(agreed) {
            return Some(agreed);
        }
        self.complain("the numbers are not in the ranges below");
        None
    }

    // The settings in the program's arguments, behind which the word may stand; none if there is nothing more to do, and what there was to say is said.
    // With `--help` it prints the usage; wrong arguments it says to standard error. What the arguments are is the operating system's answer, and the
    // rules leave it open; but settings that it answers are in range.
    pub fn read_with(self, rt: &impl Env, word: &[u8]) -> Option<Settings>
        ensures { InRange result }
    {
        if is_word(rt, 1, b"--help") {
            self.print_usage(STDOUT_FILENO);
            return None;
        }
        if are_four(rt, word) {
            return self.read_four(rt);
        }
        self.complain("four numbers are needed, and nothing else that is not below");
        None
    }

    // .. behind which nothing may stand.
    pub fn read(self, rt: &impl Env) -> Option<Settings>
        ensures { InRange result }
    {
        self.read_with(rt, b"")
    }
}
