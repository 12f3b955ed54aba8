// The lines of a log, printed. Whether standard output takes them the rules leave open.
ghost use Rattle.log_lines.specs.FrameCounts.{frames_from, frames_of, AllPrinted};

use crate::words;
use console_text::STDOUT_FILENO;
use console_text::lines::{Line, NotWritten};
use log_walk::frames::Shown;
use log_walk::opening::Cursor;
use log_walk::{opening, stepping};
use rtp::refusal::{Fault, Refusal};
use rtp::settings::Settings;

fn print_settings(settings: Settings) -> Result<(), NotWritten> {
    let mut line = Line::new();
    words::put_settings(&mut line, settings);
    line.print(STDOUT_FILENO)
}

fn print_shown(frame: Shown, log: &[u8]) -> Result<(), NotWritten> {
    let mut line = Line::new();
    words::put_shown(&mut line, frame, log);
    line.print(STDOUT_FILENO)
}

// The last line, behind so many frames.
fn print_end(count: usize, frames: usize) -> Result<usize, NotWritten>
    ensures { AllPrinted result frames }
{
    let mut line = Line::new();
    words::put_end(&mut line, count);
    line.print(STDOUT_FILENO)?;
    Ok(frames)
}

// .. of a log that is refused.
fn print_fault(fault: Fault, frames: usize) -> Result<usize, NotWritten>
    ensures { AllPrinted result frames }
{
    let mut line = Line::new();
    words::put_fault(&mut line, fault);
    line.print(STDOUT_FILENO)?;
    Ok(frames)
}

// A line: the refusal's number and the reason. Whether standard output takes it is not asked.
pub fn print_refusal(why: Refusal) {
    let mut line = Line::new();
    words::put_refusal(&mut line, why);
    let _ = line.print(STDOUT_FILENO);
}

// The frames of a log from a record on, and its end or the refusal; answers how many frames are printed, and with them all that there is to print. A
// log has fewer frames than bytes.
pub fn print_from(cursor: Cursor, log: &[u8]) -> Result<usize, NotWritten>
    ensures { AllPrinted result (frames_from cursor log.now) }
{
    let mut reached = cursor;
    for frames in 0..log.len() + 1 {
        let stepped = stepping::step(reached, log);
        match stepped.answer {
            Ok(Some(frame)) => print_shown(frame, log)?,
            Ok(None) => return print_end(reached.count, frames),
            Err(fault) => return print_fault(fault, frames),
        }
        reached = stepped.cursor;
    }
    Ok(log.len() + 1)
}

// A whole log: its settings, its frames, and its end or the refusal.
pub fn print_log(log: &[u8]) -> Result<usize, NotWritten>
    ensures { AllPrinted result (frames_of log.now) }
{
    let opened = opening::open(log);
    match opened.answer {
        Ok(settings) => {
            print_settings(settings)?;
            print_from(opened.cursor, log)
        }
        Err(why) => print_fault(Fault::from(why), 0),
    }
}
