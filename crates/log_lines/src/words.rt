// The lines of a log in words: each function puts one after what a line holds.
ghost use Rattle.std.specs.Prelude.{◌≡◌, leb};
ghost use Rattle.rtp.specs.Refusals.{number as number_of};
ghost use Rattle.console_text.specs.Lines.{gathered};
ghost use Rattle.log_lines.specs.LineTexts.{format_text, redundancy_text, settings_text, shown_text, end_text, refusal_text, fault_text, Begun};

use console::{frame_lines, refusals};
use console_text::lines::Line;
use log_reader::readers;
use log_walk::frames::Shown;
use rtp::payload_format::PayloadFormat;
use rtp::refusal::{Fault, Refusal};
use rtp::settings::{NO_REDUNDANCY, Settings};

// Formats are in range in the settings of a log that is opened.
fn put_format(line: &mut Line, format: u8)
    ensures { line.new ≡ gathered line.old (format_text format) }
{
    match PayloadFormat::try_from(format) {
        Ok(PayloadFormat::G719) => line.put(b"log of G.719, "),
        Ok(PayloadFormat::G719Interleaved) => line.put(b"log of G.719 interleaved, "),
        Ok(PayloadFormat::GsmHr) => line.put(b"log of GSM-HR, "),
        Ok(PayloadFormat::Amr) => line.put(b"log of AMR, "),
        Ok(PayloadFormat::AmrWb) => line.put(b"log of AMR-WB, "),
        Err(_) => line.put(b""),
    }
}

fn put_redundancy(line: &mut Line, redundancy: u8)
    ensures { line.new ≡ gathered line.old (redundancy_text redundancy) }
{
    if redundancy == NO_REDUNDANCY {
        line.put(b", no redundancy");
    } else {
        line.put_number(b", redundancy type ", redundancy as u64);
    }
}

// The settings.
pub(crate) fn put_settings(line: &mut Line, settings: Settings)
    ensures { line.new ≡ gathered line.old (settings_text settings) }
{
    put_format(line, settings.format);
    line.put_count(
        settings.channels as u64,
        b" channel, payload type ",
        b" channels, payload type ",
    );
    line.put_number(b"", settings.payload_type as u64);
    put_redundancy(line, settings.redundancy_type);
}

// A frame: time, channel, class, length, and the bytes in hexadecimal.
pub(crate) fn put_shown(line: &mut Line, frame: Shown, log: &[u8])
    ensures { line.new ≡ gathered line.old (shown_text frame log.now) }
{
    let channel = frame.channel as u32;
    let class = frame.class as u32;
    let bytes = readers::part_at(log, frame.start, frame.length);
    frame_lines::put_frame(line, frame.time, channel, class, bytes);
}

// How many frames there are before the end.
pub(crate) fn put_end(line: &mut Line, count: usize)
    ensures { line.new ≡ gathered line.old (end_text count) }
{
    line.put(b"end, ");
    line.put_count(count as u64, b" frame", b" frames");
}

// A refusal's number and the reason, whose words the rules leave open.
pub(crate) fn put_refusal(line: &mut Line, why: Refusal)
    ensures { Begun line.old (refusal_text (number_of why)) line.new }
{
    let number = u32::from(why);
    line.put_number(b"refusal ", number as u64);
    line.put(b": ");
    refusals::put_reason(line, number);
}

// Whether a refusal is of a field, and has its place in the log.
fn is_of_field(why: Refusal) -> bool
    ensures { result ≡ leb 17 (number_of why) }
{
    matches!(
        why,
        Refusal::CutField | Refusal::MisplacedTag | Refusal::NotAllowed | Refusal::WrongCount
    )
}

// .. and between them the place in the log of the field at fault, if the refusal is of a field.
pub(crate) fn put_fault(line: &mut Line, fault: Fault)
    ensures { Begun line.old (fault_text (number_of fault.refusal) fault.offset) line.new }
{
    let why = fault.refusal;
    let number = u32::from(why);
    if !is_of_field(why) {
        put_refusal(line, why);
        return;
    }
    line.put_number(b"refusal ", number as u64);
    line.put_number(b" at byte ", fault.offset as u64);
    line.put(b": ");
    refusals::put_reason(line, number);
}
