// A log reader: a record that keeps the log that it was lent, and its cursor in it. Functions over it are thin: the work is
// done on a slice and numbers.
ghost use Rattle.std.specs.Prelude.{◌≡◌};
ghost use Rattle.rtp.specs.Editions.{current};
ghost use Rattle.log_walk.specs.Opening.{open_call};
ghost use Rattle.log_walk.specs.Stepping.{step_numbers, step_call};
ghost use Rattle.log_reader.specs.Readers.{part_at};

use log_walk::frames::Shown;
use log_walk::opening::Cursor;
use log_walk::{opening, stepping};
use rtp::refusal::Fault;

#[derive(Clone, Copy)]
pub struct LogReader<'a> {
    pub log: &'a [u8],
    pub cursor: Cursor,
}

// A reader of a log: behind its settings, or with a cursor of zeros if its first field is refused
// (the refusal of the first field is what `log_walk::opening::open` answers; `next` then says 11).
pub fn open<'a>(log: &'a [u8]) -> LogReader<'a>
    ensures { (result.log ≡ log.entry) × (result.cursor ≡ (open_call current log.now).cursor) }
{
    LogReader {
        log,
        cursor: opening::open(log).cursor,
    }
}

// A step: the next frame, and the reader moves behind it; or the end or a refusal, and the reader stays.
pub fn next<'s, 'a>(r: &'s mut LogReader<'a>) -> Result<Option<Shown>, Fault>
    ensures { (r.new.log ≡ r.old.log) × (record { answer = step_numbers result; cursor = r.new.cursor } ≡ step_call current r.old.cursor r.old.log.now) }
{
    let stepped = stepping::step(r.cursor, r.log);
    r.cursor = stepped.cursor;
    stepped.answer
}

// The bytes of s from a start on, so many; none where they are not inside s.
pub fn part_at(s: &[u8], start: usize, length: usize) -> &[u8]
    ensures { result.now ≡ part_at start length s.now }
{
    if s.len() < start {
        return &s[..0];
    }
    if s.len() - start < length {
        return &s[..0];
    }
    let end = start + length;
    &s[start..end]
}

// The bytes of a frame that a step showed, as a part of the log.
pub fn frame<'a>(r: LogReader<'a>, start: usize, length: usize) -> &'a [u8]
    ensures { result.now ≡ part_at start length r.entry.log.now }
{
    part_at(r.log, start, length)
}
