// A packet in words.
use crate::{frames, header, places, words};
use console::refusals;
use console_text::lines::NotWritten;
use formats::facts;
use read_packet::reading;
use read_payload::reading::NO_REQUEST;
use rtp::refusal::Fault;
use rtp::settings::Settings;
use rtp::sizes::ROW_AREA;

fn zero_rows() -> [u32; ROW_AREA] {
    [0; ROW_AREA]
}

// The refusal of a packet, with the place at fault where it has one.
fn print_refusal(fault: Fault, bytes: &[u8]) -> Result<(), NotWritten> {
    let number = u32::from(fault.refusal);
    let reason = refusals::reason(number);
    let place = fault.offset;
    if place == 0 {
        return words::print(format_args!("  refusal {number}: {reason}"));
    }
    words::print(format_args!("  refusal {number} at byte {place}: {reason}"))?;
    places::print(bytes, place)
}

// The mode request, in a format with a payload header.
fn print_request(format: u8, mode_request: u8) -> Result<(), NotWritten> {
    if facts::format_of(format).header == 0 {
        return Ok(());
    }
    if mode_request == NO_REQUEST {
        return words::print("  no mode request");
    }
    words::print(format_args!("  mode request {mode_request}"))
}

// The packet's mode request and frames, or its refusal.
fn print_reading(settings: Settings, bytes: &[u8]) -> Result<(), NotWritten> {
    let mut rows = zero_rows();
    match reading::read(settings, bytes, &mut rows) {
        Err(fault) => print_refusal(fault, bytes),
        Ok(answer) => {
            print_request(settings.format, answer.mode_request)?;
            frames::print(settings.format, &rows, answer.rows)
        }
    }
}

// The packet's number and size, and all that is in it.
pub(crate) fn print(settings: Settings, number: u64, bytes: &[u8]) -> Result<(), NotWritten> {
    words::print(format_args!("packet {number}: {}", words::bytes(bytes.len())))?;
    header::print(settings, bytes)?;
    print_reading(settings, bytes)
}
