// Logs read and written, and printed.
use log_lines::printing;
use log_writer::writing;
use rtp::refusal::Refusal;
use rtp::settings::Settings;

// The most bytes that are written.
pub(crate) const AREA: usize = 1024;

// The log of the first n bytes.
pub(crate) fn read(bytes: &[u8], n: usize) {
    if let Some(log) = bytes.get(..n) {
        let _ = printing::print_log(log);
    }
}

// The log that is written, read, or the refusal.
fn show(written: Result<usize, Refusal>, out: &[u8]) {
    match written {
        Ok(n) => read(out, n),
        Err(why) => printing::print_refusal(why),
    }
}

// The rows, whose frames lie in the bytes, written into the first so many bytes of an area; an area that is shorter is too short.
fn write_into(
    settings: Settings,
    rows: &[u32],
    bytes: &[u8],
    out: &mut [u8],
    room: usize,
) -> Result<usize, Refusal> {
    let area = out.get_mut(..room).ok_or(Refusal::AreaTooShort)?;
    writing::write(settings, rows, bytes, area)
}

// The same, and what it came to shown.
pub(crate) fn write(settings: Settings, rows: &[u32], bytes: &[u8], room: usize) {
    let mut out = [0; AREA];
    let written = write_into(settings, rows, bytes, &mut out, room);
    show(written, &out);
}
