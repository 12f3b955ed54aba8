// A packet read, and what reading answers printed.
use examples_text::printing::print;
use examples_text::values::ROOM;
use read_packet::reading;
use read_packet::reading::Packet;
use row_tags::tagging;
use rtp::payload_format::PayloadFormat;
use rtp::refusal::Fault;
use rtp::settings::Settings;
use rtp::sizes::{ROW_AREA, ROW_WIDTH};

// The mode request is printed for the formats that have one.
fn print_header(format: u8, packet: Packet) {
    print(b"count ", packet.rows);
    print(b" marker ", packet.marker as u32);
    print(b" sequence ", packet.sequence as u32);
    print(b" timestamp ", packet.timestamp);
    print(b" source ", packet.source);
    if let Ok(PayloadFormat::Amr | PayloadFormat::AmrWb) = PayloadFormat::try_from(format) {
        print(b" mode request ", packet.mode_request as u32);
    }
    io::write_all(1, b"\n");
}

fn print_row(row: &[u32]) {
    if let [time, tag, start, length] = row {
        print(b"", *time);
        print(b" ", tagging::tag_class(*tag));
        print(b" ", tagging::tag_channel(*tag));
        print(b" ", *start);
        print(b" ", *length);
        print(b" ", tagging::tag_mark(*tag));
        io::write_all(1, b"\n");
    }
}

fn print_rows(rows: &[u32; ROW_AREA], count: u32) {
    for row in rows.chunks(ROW_WIDTH).take(count as usize) {
        print_row(row);
    }
}

// The offset of the place at fault, 0 where there is none.
fn print_offset(offset: usize) {
    io::write_all(1, b" offset ");
    io::print_decimal(1, offset as u64);
    io::write_all(1, b"\n");
}

fn print_reading(format: u8, answer: Result<Packet, Fault>, rows: &[u32; ROW_AREA]) {
    match answer {
        Err(fault) => {
            let why = fault.refusal;
            print(b"refusal ", u32::from(why));
            print_offset(fault.offset);
        }
        Ok(packet) => {
            print_header(format, packet);
            print_rows(rows, packet.rows);
        }
    }
}

// The packet of the first `size` bytes, read into the first so many words of the area.
fn read_part(
    settings: Settings,
    bytes: &[u8],
    size: usize,
    area: &mut [u32],
    words: usize,
) -> Result<Packet, Fault> {
    let n = size.min(bytes.len());
    let m = words.min(area.len());
    reading::read(settings, &bytes[..n], &mut area[..m])
}

// The same with an area of zeros, and what it came to printed.
pub(crate) fn read(settings: Settings, words: u32, bytes: &[u8; ROOM], size: u32) {
    let mut rows = [0; ROW_AREA];
    let answer = read_part(settings, bytes, size as usize, &mut rows, words as usize);
    print_reading(settings.format, answer, &rows);
}
