// Verdicts counted.
ghost use Rattle.std.specs.Prelude.{◌≡◌};
ghost use Rattle.buffer_insert.specs.Tallies.{counts_of, no_tally, tallied};

use buffer_copies::verdict::Verdict;

// How often each verdict was given.
#[derive(Clone, Copy, Debug, PartialEq, Eq)]
pub struct Tally {
    pub late: u32,
    pub far: u32,
    pub repeated: u32,
    pub better: u32,
    pub no_room: u32,
    pub inserted: u32,
}

// No verdict given yet.
pub fn no_tally() -> Tally
    ensures { result ≡ no_tally }
{
    Tally {
        late: 0,
        far: 0,
        repeated: 0,
        better: 0,
        no_room: 0,
        inserted: 0,
    }
}

// One more of a verdict; the most that a count can be stays.
pub fn count_verdict(tally: Tally, verdict: Verdict) -> Tally
    ensures { counts_of result ≡ tallied (counts_of tally) verdict }
{
    let mut next = tally;
    match verdict {
        Verdict::Late => next.late = next.late.saturating_add(1),
        Verdict::Far => next.far = next.far.saturating_add(1),
        Verdict::Repeated => next.repeated = next.repeated.saturating_add(1),
        Verdict::Better => next.better = next.better.saturating_add(1),
        Verdict::NoRoom => next.no_room = next.no_room.saturating_add(1),
        Verdict::Inserted => next.inserted = next.inserted.saturating_add(1),
    }
    next
}
