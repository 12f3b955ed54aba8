// Words for numbers, classes and frame types, and a line printed.
ghost use Rattle.std.specs.Prelude.{Some, ◌++◌, cond, eqb};
ghost use Rattle.std.specs.Fmt.{decimal};
ghost use Rattle.console_text.specs.Ascii.{ascii};

use console_text::lines::NotWritten;
use console_text::words::Count;
use console_text::{STDOUT_FILENO, lines};
use formats::facts;
use frame_codes::coding;
use std::fmt;
use std::fmt::{Display, Formatter, Write};

// So many bytes.
pub(crate) fn bytes(n: usize) -> Count {
    Count(n as u64, "byte", "bytes")
}

// A frame's class.
#[derive(Clone, Copy, Drop)]
pub(crate) struct Class(pub u32);

impl Display for Class {
    ghost output = { λ c. Some
        (cond (eqb c.0 0) (ascii "no data")
        (cond (eqb c.0 1) (ascii "sound")
        (cond (eqb c.0 2) (ascii "silence descriptor (SID)")
        (cond (eqb c.0 5) (ascii "damaged sound")
        (cond (eqb c.0 6) (ascii "damaged silence descriptor (SID)")
        (ascii "class " ++ decimal c.0)))))) };

    fn fmt<W: Write>(&self, f: &mut Formatter<W>) -> fmt::Result {
        match self.0 {
            0 => write!(f, "no data"),
            1 => write!(f, "sound"),
            2 => write!(f, "silence descriptor (SID)"),
            5 => write!(f, "damaged sound"),
            6 => write!(f, "damaged silence descriptor (SID)"),
            class => write!(f, "class {class}"),
        }
    }
}

// The frame type, in a format whose codes are a type and a quality bit: it follows from class and length.
pub(crate) fn type_of(format: u8, class: u32, n: u32) -> Option<u32> {
    if facts::format_of(format).graded {
        return Some(coding::code_for(format, class, n) / 2);
    }
    None
}

// Words on a line of standard output.
pub(crate) fn print(words: impl Display + Drop) -> Result<(), NotWritten> {
    lines::print(STDOUT_FILENO, words)
}
