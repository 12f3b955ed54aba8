// The lines of a text.
ghost use Rattle.std.specs.Prelude.{◌≡◌, true, cond, leb, position, get_or, replicate, Some, None, IfSome};
ghost use Rattle.std.specs.Iterator.{at_most};
ghost use Rattle.examples_text.specs.Lines.{ended, is_line, is_comment, spaces, after_spaces, starts_with, has_from, has_exactly, text};

// The numbers of standard input and standard output.
const STDIN_FILENO: i32 = 0;

const STDOUT_FILENO: i32 = 1;

// The room for a line. What is longer goes on as a line of its own.
pub const LINE: usize = 512;

pub(crate) const NEWLINE: u8 = 10;

pub(crate) const SPACE: u8 = 32;

const HASH: u8 = 35;

// The next byte of the input, none at its end.
fn next_byte() -> Option<u8> {
    let mut one = [0u8; 1];
    if io::read_full(STDIN_FILENO, &mut one) == 0 {
        return None;
    }
    Some(one[0])
}

fn blank() -> [u8; LINE]
    ensures { result ≡ replicate 512 0 }
{
    [0; LINE]
}

// The next line with its end, and zeros; zeros alone at the end of the input. Which bytes it has is open.
fn read() -> [u8; LINE]
    ensures { result ≡ ended result }
{
    let mut line = blank();
    for place in line.iter_mut() {
        let byte = next_byte().unwrap_or(0);
        *place = byte;
        if byte <= NEWLINE {
            return line;
        }
    }
    line
}

// Whether the input had a line.
pub fn is_line(line: &[u8; LINE]) -> bool
    ensures { result ≡ is_line line.now }
{
    0 < byte(line, 0)
}

// A line, none where the input had none.
fn given(line: [u8; LINE]) -> Option<[u8; LINE]>
    ensures { result ≡ cond (is_line line) (Some line) None }
{
    is_line(&line).then_some(line)
}

// The next line with its end, and zeros; none at the end of the input. Which bytes it has is open.
pub fn next() -> Option<[u8; LINE]>
    ensures { IfSome result (λ line. (line ≡ ended line) × (is_line line ≡ true)) }
{
    given(read())
}

// The lines of the input; no text has as many as are left at first.
#[derive(Drop)]
pub struct Lines {
    left: u64,
}

impl Iterator for Lines {
    type Item = [u8; LINE];

    ghost remaining = { λ s. at_most s.left };

    fn next(&mut self) -> Option<[u8; LINE]> {
        self.left = self.left.checked_sub(1)?;
        next()
    }
}

pub fn input() -> Lines {
    Lines { left: u64::MAX }
}

// The byte at a place, 0 past the room.
pub(crate) fn byte(line: &[u8], i: usize) -> u8
    ensures { result ≡ get_or line.now i 0 }
{
    line.get(i).copied().unwrap_or(0)
}

// Whether a line is blank or a comment.
pub fn is_comment(line: &[u8; LINE]) -> bool
    ensures { result ≡ is_comment line.now }
{
    let first = byte(line, 0);
    first <= NEWLINE || first == HASH
}

// Whether a line's first word is this one.
fn first_is(line: &[u8], word: &[u8]) -> bool
    ensures { result ≡ starts_with word.now line.now }
{
    for (i, letter) in word.iter().enumerate() {
        if byte(line, i) != *letter {
            return false;
        }
    }
    byte(line, word.len()) <= SPACE
}

// How many words a line has after its first.
pub fn count(line: &[u8; LINE]) -> usize
    ensures { result ≡ spaces line.now }
{
    line.iter().filter(|byte| **byte == SPACE).count()
}

// Whether a line's first word is this one, with so many after it or more.
pub fn has_from(line: &[u8; LINE], word: &[u8], words: usize) -> bool
    ensures { result ≡ has_from line.now word.now words }
{
    first_is(line, word) && words <= count(line)
}

// Whether a line's first word is this one, with so many after it and no more.
pub fn has(line: &[u8; LINE], word: &[u8], words: usize) -> bool
    ensures { result ≡ has_exactly line.now word.now words }
{
    first_is(line, word) && count(line) == words
}

// What follows the k-th space; nothing if there are fewer.
pub(crate) fn after(line: &[u8], k: usize) -> &[u8]
    ensures { result.now ≡ after_spaces k line.now }
{
    let mut left = k;
    for (i, byte) in line.iter().enumerate() {
        if left == 0 {
            return &line[i..];
        }
        if *byte == SPACE {
            left -= 1;
        }
    }
    &[]
}

// Where the line ends, if it does.
fn end(line: &[u8]) -> Option<usize>
    ensures { result ≡ position (λ byte. leb byte 10) line.now }
{
    line.iter().position(|byte| *byte <= NEWLINE)
}

// The bytes up to the end of the line.
pub(crate) fn text(line: &[u8]) -> &[u8]
    ensures { result.now ≡ text line.now }
{
    match end(line) {
        Some(end) => &line[..end],
        None => line,
    }
}

// Prints the words after the k-th space.
fn print(line: &[u8], k: usize) {
    io::write_all(STDOUT_FILENO, text(after(line, k)));
}

fn end_line() {
    io::write_all(STDOUT_FILENO, &[NEWLINE]);
}

pub fn malformed(line: &[u8; LINE]) {
    io::write_all(STDOUT_FILENO, b"malformed: ");
    print(line, 0);
    end_line();
}

// Prints all words after the first.
pub fn print_words(line: &[u8; LINE]) {
    print(line, 1);
}

// The same and the end of the line.
pub fn print_label(line: &[u8; LINE]) {
    print(line, 1);
    end_line();
}
