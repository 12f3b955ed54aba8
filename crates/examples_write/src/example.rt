// Lists of frames written and printed.
use examples_text::printing::print;
use read_packet::reading;
use read_packet::reading::Packet;
use row_tags::tagging;
use rtp::payload_format::PayloadFormat;
use rtp::refusal::Refusal;
use rtp::settings::Settings;
use rtp::sizes::{MAX_PACKET, ROW_AREA, ROW_WIDTH};
use write_packet::packets;
use write_payload::writing;

// The frames' bytes: each its own place modulo 251.
const FRAME_BYTES: usize = 512;

fn sound() -> [u8; FRAME_BYTES] {
    std::array::from_fn(|i| (i % 251) as u8)
}

fn print_byte(x: u8) {
    io::print_hex(1, x as u64, 2);
}

fn print_bytes(bytes: &[u8], n: usize) {
    for byte in bytes.iter().take(n) {
        print_byte(*byte);
    }
    io::write_all(1, b"\n");
}

// The bytes written, or the refusal; answers those bytes.
fn show(written: Result<usize, Refusal>, bytes: &[u8]) -> Option<&[u8]> {
    match written {
        Err(why) => {
            print(b"refusal ", u32::from(why));
            io::write_all(1, b"\n");
            None
        }
        Ok(n) => {
            io::print_decimal(1, n as u64);
            io::write_all(1, b" bytes ");
            print_bytes(bytes, n);
            bytes.get(..n)
        }
    }
}

// The rows written as a payload.
pub(crate) fn payload(settings: Settings, mode_request: u8, rows: &[u32]) {
    let bytes = sound();
    let mut out = [0; MAX_PACKET];
    let written = writing::write_payload(settings, mode_request, rows, &bytes, &mut out);
    show(written, &out);
}

fn print_first(start: u32, packet: &[u8]) {
    if let Some(byte) = packet.get(start as usize) {
        io::write_all(1, b" first byte ");
        print_byte(*byte);
    }
}

// The words of a row read: time, class, channel, start and length, and whether it was heard first-hand; and its first byte.
fn print_row(row: &[u32], packet: &[u8]) {
    if let [time, tag, start, length] = row {
        print(b"row ", *time);
        print(b" ", tagging::tag_class(*tag));
        print(b" ", tagging::tag_channel(*tag));
        print(b" ", *start);
        print(b" ", *length);
        print(b" primary ", tagging::tag_mark(*tag));
        print_first(*start, packet);
        io::write_all(1, b"\n");
    }
}

fn print_rows(rows: &[u32], count: u32, packet: &[u8]) {
    for row in rows.chunks(ROW_WIDTH).take(count as usize) {
        print_row(row, packet);
    }
}

// The mode request is printed for the formats that have one.
fn print_head(format: u8, head: Packet) {
    print(b"read back: rows ", head.rows);
    print(b" marker ", head.marker as u32);
    print(b" sequence ", head.sequence as u32);
    print(b" timestamp ", head.timestamp);
    print(b" source ", head.source);
    if let Ok(PayloadFormat::Amr | PayloadFormat::AmrWb) = PayloadFormat::try_from(format) {
        print(b" mode request ", head.mode_request as u32);
    }
    io::write_all(1, b"\n");
}

fn read_back(settings: Settings, packet: &[u8]) {
    let mut rows = [0; ROW_AREA];
    match reading::read(settings, packet, &mut rows) {
        Err(fault) => {
            let why = fault.refusal;
            print(b"read back: refusal ", u32::from(why));
            io::write_all(1, b"\n");
        }
        Ok(head) => {
            print_head(settings.format, head);
            print_rows(&rows, head.rows, packet);
        }
    }
}

// The same as a packet with marker 1, sequence 65244 and source 2712847316, read back.
pub(crate) fn packet(settings: Settings, mode_request: u8, counts: &[u32], rows: &[u32]) {
    let bytes = sound();
    let mut out = [0; MAX_PACKET];
    let written = packets::write_packet(
        settings,
        mode_request,
        1,
        65244,
        2712847316,
        counts,
        rows,
        &bytes,
        &mut out,
    );
    if let Some(packet) = show(written, &out) {
        read_back(settings, packet);
    }
}
