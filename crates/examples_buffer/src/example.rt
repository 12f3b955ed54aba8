// Packets offered to a buffer and frames drawn from it, printed; and packets of interleaved mono, made up.
use buffer_draw::draws;
use buffer_draw::draws::DrawnFrame;
use buffer_insert::tally::Tally;
use buffer_layout::buffer::{Buffer, SLOT_SIZE, STORE_SIZE};
use buffer_offer::calls;
use examples_text::printing::print;
use row_tags::tagging::PRIMARY;
use rtp::refusal::Fault;
use rtp::sizes::ROW_AREA;

// The packet of frame-blocks k, k + 5, k + 10 and k + 15, each of 80 bytes that are its number. The time of frame-block 0 is `base`.
fn packet_of(base: u32, k: u8) -> [u8; 336] {
    let mut bytes = [k; 336];
    let time = base.wrapping_add(960 * (k as u32));
    bytes[0] = 0x80;
    bytes[1] = 97;
    bytes[4..8].copy_from_slice(&time.to_be_bytes());
    bytes[12..16].copy_from_slice(&[0x20, 0x04, 0x04, 0x44]);
    bytes[96..176].fill(k.wrapping_add(5));
    bytes[176..256].fill(k.wrapping_add(10));
    bytes[256..].fill(k.wrapping_add(15));
    bytes
}

fn print_tally(tally: Tally) {
    print(b" late ", tally.late);
    print(b" far ", tally.far);
    print(b" repeated ", tally.repeated);
    print(b" better ", tally.better);
    print(b" no room ", tally.no_room);
    print(b" inserted ", tally.inserted);
    io::write_all(1, b"\n");
}

fn print_fault(fault: Fault) {
    print(b" refusal ", u32::from(fault.refusal));
    io::write_all(1, b" offset ");
    io::print_decimal(1, fault.offset as u64);
    io::write_all(1, b"\n");
}

// A packet offered, and how it was judged.
pub(crate) fn offer(buffer: Buffer, store: &mut [u8; STORE_SIZE], packet: &[u8]) -> Buffer {
    let mut rows = [0; ROW_AREA];
    let offered = calls::offer(buffer, packet, &mut rows, store);
    let answer = offered.answer;
    match answer {
        Err(fault) => print_fault(fault),
        Ok(tally) => print_tally(tally),
    }
    offered.buffer
}

pub(crate) fn offer_number(
    buffer: Buffer,
    store: &mut [u8; STORE_SIZE],
    base: u32,
    k: u8,
) -> Buffer {
    let bytes = packet_of(base, k);
    print(b"offer ", k as u32);
    offer(buffer, store, &bytes)
}

// The earliest frame drawn and shown, or why there is none.
fn draw_and_show<F: FnOnce(DrawnFrame, &[u8; SLOT_SIZE])>(
    buffer: Buffer,
    store: &[u8; STORE_SIZE],
    show: F,
) -> Buffer
    requires { F.IsAlwaysCallable show }
{
    let mut area = [0; SLOT_SIZE];
    let drawn = draws::draw(buffer, store, &mut area);
    let answer = drawn.answer;
    match answer {
        Err(why) => print(b" refusal ", u32::from(why)),
        Ok(None) => {
            io::write_all(1, b" empty");
        }
        Ok(Some(frame)) => show(frame, &area),
    }
    drawn.buffer
}

// A byte of a frame-block, if it is not its number.
fn print_other(byte: u8, number: u32) {
    let value = byte as u32;
    if value != number {
        print(b"!", value);
    }
}

// A frame-block's number by its time, its first and last byte if they tell of another, and a word if it was not heard first-hand.
fn print_number(base: u32, frame: DrawnFrame, area: &[u8; SLOT_SIZE]) {
    let number = frame.time.wrapping_sub(base) / 960;
    print(b" ", number);
    print_other(area[0], number);
    print_other(area[79], number);
    if frame.primary != PRIMARY as u32 {
        io::write_all(1, b" by redundancy");
    }
}

pub(crate) fn draw_number(buffer: Buffer, store: &[u8; STORE_SIZE], base: u32) -> Buffer {
    draw_and_show(buffer, store, |frame, area| print_number(base, frame, area))
}

// The channel of a frame drawn, if it is not the first, and whether the frame was heard first-hand.
fn print_heard(channel: u32, primary: u32) {
    if 0 < channel {
        print(b" channel ", channel);
    }
    if primary == PRIMARY as u32 {
        io::write_all(1, b" first-hand: ");
    } else {
        io::write_all(1, b" by redundancy: ");
    }
}

// The time, class and channel of a frame drawn, whether it was heard first-hand, and its bytes.
fn print_frame(frame: DrawnFrame, area: &[u8]) {
    print(b" ", frame.time);
    print(b" ", frame.class);
    print_heard(frame.channel, frame.primary);
    if let Some(bytes) = area.get(..frame.length as usize) {
        io::write_all(1, bytes);
    }
}

// The earliest frame drawn, in a line of its own.
pub(crate) fn draw(buffer: Buffer, store: &[u8; STORE_SIZE]) -> Buffer {
    io::write_all(1, b"draw");
    let reached = draw_and_show(buffer, store, |frame, area| print_frame(frame, area));
    io::write_all(1, b"\n");
    reached
}
