// The frame-blocks of the stream, interleaved as in document 001: packet k has those numbered 4k + 1, 4k + 6, 4k + 11 and 4k + 16. It has
// eight rows: those of the packet before it, which it repeats, then its own.
use row_tags::tagging;
use rtp::sizes::ROW_WIDTH;

// The time of frame-block 0, by which frame-block 92 stands at time 0.
const BASE: u32 = 4294878976;
// Ticks from a frame-block to the next.
const STEP: u32 = 960;
// The bytes of a frame, and of a frame of every seventh packet.
const SHORT: u32 = 80;

const LONG: u32 = 120;
// The rows of a packet, their words, and the bytes of as many longer frames, one for each row.
const ROWS: u8 = 8;

pub(crate) const WORDS: usize = 32;

pub(crate) const BYTES: usize = 960;

// The packet that a row of packet k comes from. Packet 0 has none before it, and its first four rows are not used.
fn packet_of(k: u8, row: u8) -> u8 {
    if row < 4 { k.wrapping_sub(1) } else { k }
}

// The number of the frame-block of a row.
fn number_of(k: u8, row: u8) -> u16 {
    4 * (packet_of(k, row) as u16) + 1 + 5 * ((row % 4) as u16)
}

fn time_of(number: u16) -> u32 {
    BASE.wrapping_add(STEP * (number as u32))
}

fn length_of(packet: u8) -> u32 {
    if packet % 7 == 3 { LONG } else { SHORT }
}

// The rows of packet k - 1, then those of packet k: time, tag (sound of channel 0; the writer ignores the mark), start and length.
pub(crate) fn rows(k: u8) -> [u32; WORDS] {
    let mut words = [0u32; WORDS];
    for (row, place) in (0..ROWS).zip(words.chunks_exact_mut(ROW_WIDTH)) {
        if let [time, tag, start, length] = place {
            *time = time_of(number_of(k, row));
            *tag = tagging::pack_tag(tagging::PRIMARY, 1, 0);
            *start = LONG * row as u32;
            *length = length_of(packet_of(k, row));
        }
    }
    words
}

// A byte of a frame: the low and the high byte of the frame-block's number, then bytes that count up.
fn frame_byte(number: u16, place: u8) -> u8 {
    let [low, high] = number.to_le_bytes();
    match place {
        0 => low,
        1 => high,
        _ => low.wrapping_add(place),
    }
}

// The bytes that the rows point into.
pub(crate) fn sound(k: u8) -> [u8; BYTES] {
    let mut bytes = [0u8; BYTES];
    for (row, frame) in (0..ROWS).zip(bytes.chunks_exact_mut(LONG as usize)) {
        let number = number_of(k, row);
        for (place, byte) in (0..LONG as u8).zip(frame.iter_mut()) {
            *byte = frame_byte(number, place);
        }
    }
    bytes
}
