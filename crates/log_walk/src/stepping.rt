// A step to the next frame of a log.
ghost use Rattle.std.specs.Prelude.{◌≡◌, ◌≤◌, length, drop};
ghost use Rattle.rtp.specs.Editions.{current};
ghost use Rattle.log_walk.specs.Stepping.{further, walk, cursor_fits, step, step_numbers, step_call};

use crate::frames;
use crate::frames::{Next, Shown};
use crate::opening::{Answered, Cursor};
use log_fields::fields::FIRST_SIZE;
use rtp::refusal::{Fault, Refusal};
use rtp::settings;
use rtp::settings::Settings;

// Whether a record's place and count fit a log of n bytes.
fn cursor_fits(cursor: Cursor, n: usize) -> bool
    ensures { result ≡ cursor_fits cursor n }
{
    FIRST_SIZE <= cursor.place && cursor.place <= n && cursor.count <= cursor.place
}

// The next frame from a place on, the end, or the first fault; fields with other tags are passed over.
fn walk_from(
    settings: Settings,
    count: usize,
    place: usize,
    log: &[u8],
) -> Result<Option<Shown>, Fault>
    requires { place ≤ length log.now }
    ensures { result ≡ further place (walk settings count (drop place log.now)) }
{
    let mut at = place;
    loop {
        match frames::next_field(settings, count, &log[at..]) {
            Ok(Next::Frame(f)) => {
                break Ok(Some(Shown {
                    start: at + f.start,
                    ..f
                }))
            }
            Ok(Next::End) => break Ok(None),
            Ok(Next::Pass(n)) => at += n,
            Err(fault) => break Err(fault.shifted(at)),
        }
    }
}

// What a step comes to.
fn answer_of(cursor: Cursor, log: &[u8]) -> Result<Option<Shown>, Fault>
    ensures { result ≡ step current cursor log.now }
{
    if !settings::in_range(cursor.settings) {
        return Err(Refusal::SettingsOutOfRange.into());
    }
    if !cursor_fits(cursor, log.len()) {
        return Err(Refusal::Malformed.into());
    }
    walk_from(cursor.settings, cursor.count, cursor.place, log)
}

// A step: the next frame and the record behind it; or the end or a refusal, and the record as given.
pub fn step(cursor: Cursor, log: &[u8]) -> Answered<Result<Option<Shown>, Fault>>
    ensures { record { answer = step_numbers result.answer; cursor = result.cursor } ≡ step_call current cursor log.now }
{
    let answer = answer_of(cursor, log);
    match answer {
        Ok(Some(f)) => Answered {
            answer,
            cursor: Cursor {
                place: f.start + f.length,
                count: cursor.count + 1,
                ..cursor
            },
        },
        Ok(None) => Answered { answer, cursor },
        Err(_) => Answered { answer, cursor },
    }
}
