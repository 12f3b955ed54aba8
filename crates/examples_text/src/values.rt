// The values that the words of a line are.
ghost use Rattle.std.specs.Prelude.{◌+◌, ◌<◌, ◌≡◌, length, get_or, replicate, unwrap_or, SomeIff};
ghost use Rattle.std.specs.Option.{UnwrapsOrElse};
ghost use Rattle.std.proofs.lemmas.List.Edits.{sets};
ghost use Rattle.examples_text.specs.Lines.{after_spaces, text};
ghost use Rattle.examples_text.specs.Values.{byte_room, number_room, digit as digit_of, with_digits, number_of, small_of, settings_of, no_settings, numbers_of, pair_of, bytes_of, fitting};

use crate::script;
use crate::script::{LINE, NEWLINE, SPACE};
use rtp::settings::Settings;

// The room for bytes, more than the longest packet has, and for numbers.
pub const ROOM: usize = 4096;

pub const NUMBERS: usize = 64;

// The value of a hexadecimal digit.
#[tactic(auto, unfolding(crate::specs::Values::digit))]
fn digit(byte: u8) -> Option<u8>
    ensures { SomeIff result (digit_of byte < 16) (digit_of byte) }
{
    match byte {
        b'0'..=b'9' => Some(byte - b'0'),
        b'A'..=b'F' => Some(byte - b'A' + 10),
        _ => None,
    }
}

// The number that the decimal digits up to a word's end are; none where they are none, too many, or not a whole word.
fn decimal(word: &[u8]) -> Option<u32>
    ensures { unwrap_or result 0 ≡ with_digits 0 word.now }
{
    if script::byte(word, 0) <= SPACE {
        return None;
    }
    let mut value: u32 = 0;
    for byte in word {
        if *byte <= SPACE {
            return Some(value);
        }
        value = value
            .checked_mul(10)?
            .checked_add(char::from(*byte).to_digit(10)?)?;
    }
    Some(value)
}

// A value, or 0 and a fault said.
fn or_malformed<T: Default + Drop>(line: &[u8; LINE], value: Option<T>) -> T
    ensures { UnwrapsOrElse value T.is_default result }
{
    if value.is_none() {
        script::malformed(line);
    }
    value.unwrap_or_default()
}

// The number that the k-th word after the first is.
pub fn number(line: &[u8; LINE], k: usize) -> u32
    ensures { result ≡ number_of line.now k }
{
    or_malformed(line, decimal(script::after(line, k)))
}

// The same, up to 255.
pub fn small(line: &[u8; LINE], k: usize) -> u8
    ensures { result ≡ small_of line.now k }
{
    or_malformed(line, u8::try_from(number(line, k)).ok())
}

// The format, the channels, the payload type and the redundancy type that the four words after the first are.
pub fn settings(line: &[u8; LINE]) -> Settings
    ensures { result ≡ settings_of line.now }
{
    Settings {
        format: small(line, 1),
        channels: small(line, 2),
        payload_type: small(line, 3),
        redundancy_type: small(line, 4),
    }
}

// No settings yet.
pub fn no_settings() -> Settings
    ensures { result ≡ no_settings }
{
    Settings {
        format: 0,
        channels: 0,
        payload_type: 0,
        redundancy_type: 0,
    }
}

// The byte that a word of two hexadecimal digits is, with what parts it from the next.
#[tactic(auto, unfolding(crate::specs::Values::pair_of))]
fn pair(word: &[u8]) -> Option<u8>
    ensures { unwrap_or result 0 ≡ pair_of (get_or word.now 0 0) (get_or word.now 1 0) (get_or word.now 2 0) }
{
    if SPACE < script::byte(word, 2) {
        return None;
    }
    let high = digit(script::byte(word, 0))?;
    let low = digit(script::byte(word, 1))?;
    Some(16 * high + low)
}

// Zeros all over.
pub fn clear(bytes: &mut [u8; ROOM])
    ensures { bytes.new ≡ replicate byte_room 0 }
{
    *bytes = [0; ROOM];
}

// The bytes of the words from the k-th after the first on, each of two hexadecimal digits, laid from `at` on as far as there is room;
// answers the place after them.
pub fn put_bytes(line: &[u8; LINE], k: usize, area: &mut [u8; ROOM], at: usize) -> usize
    ensures value { result ≡ at + length (fitting byte_room at (bytes_of (after_spaces k line.now))) }
    ensures area_after { area.new ≡ sets area.old at (fitting byte_room at (bytes_of (after_spaces k line.now))) }
{
    let mut to = at;
    for word in script::after(line, k).chunks(3) {
        if script::byte(word, 0) <= NEWLINE {
            return to;
        }
        if ROOM <= to {
            script::malformed(line);
            return to;
        }
        area[to] = or_malformed(line, pair(word));
        to += 1;
    }
    to
}

// The same with the bytes of the line after the k-th space as they stand.
pub fn put_text(line: &[u8; LINE], k: usize, area: &mut [u8; ROOM], at: usize) -> usize
    ensures value { result ≡ at + length (fitting byte_room at (text (after_spaces k line.now))) }
    ensures area_after { area.new ≡ sets area.old at (fitting byte_room at (text (after_spaces k line.now))) }
{
    let text = script::text(script::after(line, k));
    let mut to = at;
    for byte in text {
        if ROOM <= to {
            script::malformed(line);
            return to;
        }
        area[to] = *byte;
        to += 1;
    }
    to
}

// The same with the numbers of all words after the first.
pub fn put_numbers(line: &[u8; LINE], area: &mut [u32; NUMBERS], at: usize) -> usize
    ensures value { result ≡ at + length (fitting number_room at (numbers_of line.now)) }
    ensures area_after { area.new ≡ sets area.old at (fitting number_room at (numbers_of line.now)) }
{
    let bytes: &[u8] = line;
    let mut to = at;
    for (i, byte) in bytes.iter().enumerate() {
        if *byte == SPACE {
            if NUMBERS <= to {
                script::malformed(line);
                return to;
            }
            area[to] = or_malformed(line, decimal(&bytes[i + 1..]));
            to += 1;
        }
    }
    to
}
