// RFC 3550, appendix A.1: is a packet valid by its sequence number, and the counts after it.
ghost use Rattle.std.specs.Prelude.{◌≡◌, ◌<◌, true};
ghost use Rattle.report_sequence.specs.Sequence.{following, anew, counted, first, invalid, wanting, probed, advanced, followed, judged};

use crate::record::{Counts, MAX_DROPOUT, MAX_MISORDER, MIN_SEQUENTIAL, NO_SEQUENCE, SEQUENCES};

#[derive(Clone, Copy, Debug, PartialEq, Eq)]
pub struct Judged {
    pub valid: bool,
    pub counts: Counts,
}

// The sequence number after this one: 0 follows 65535.
fn after(sequence: u32) -> u32
    ensures { result ≡ following sequence }
{
    (sequence % SEQUENCES + 1) % SEQUENCES
}

// The counts started anew at a sequence number.
#[tactic(auto, unfolding(crate::specs::Sequence::anew))]
fn restart(counts: Counts, sequence: u32) -> Counts
    ensures { result ≡ anew counts sequence }
{
    Counts {
        base: sequence,
        highest: sequence,
        bad: NO_SEQUENCE,
        cycles: 0,
        received: 0,
        expected_prior: 0,
        received_prior: 0,
        ..counts
    }
}

// A valid packet, received.
#[tactic(auto, unfolding(crate::specs::Sequence::counted))]
fn receive(counts: Counts) -> Judged
    ensures { result ≡ record { valid = true; counts = counted counts } }
{
    Judged {
        valid: true,
        counts: Counts {
            received: counts.received.wrapping_add(1),
            ..counts
        },
    }
}

// A packet that is not valid, and the counts after it.
fn refuse(counts: Counts) -> Judged
    ensures { result ≡ invalid counts }
{
    Judged {
        valid: false,
        counts,
    }
}

// So many packets in sequence are still wanted after this number.
#[tactic(auto, unfolding(crate::specs::Sequence::wanting))]
fn wait(counts: Counts, probation: u32, sequence: u32) -> Counts
    ensures { result ≡ wanting counts probation sequence }
{
    Counts {
        probation,
        highest: sequence,
        ..counts
    }
}

// A source's first packet: the number before its own is taken for the highest.
#[tactic(auto, unfolding(crate::specs::Sequence::first, crate::specs::Sequence::anew))]
fn begin(sequence: u16) -> Counts
    ensures { result ≡ first sequence }
{
    let number = sequence as u32;
    Counts {
        probation: MIN_SEQUENTIAL,
        started: 1,
        highest: (number + (SEQUENCES - 1)) % SEQUENCES,
        ..restart(Counts::default(), number)
    }
}

// A packet while probation lasts.
fn probe(counts: Counts, sequence: u16) -> Judged
    requires { 0 < counts.probation }
    ensures { result ≡ probed counts sequence }
{
    let number = sequence as u32;
    if number != after(counts.highest) {
        return refuse(wait(counts, MIN_SEQUENTIAL - 1, number));
    }
    if counts.probation == 1 {
        return receive(restart(wait(counts, 0, number), number));
    }
    refuse(wait(counts, counts.probation - 1, number))
}

// A packet in order: it has the highest number; where that is less than the highest before, a cycle is over.
#[tactic(auto, unfolding(crate::specs::Sequence::advanced))]
fn advance(counts: Counts, sequence: u16) -> Counts
    ensures { result ≡ advanced counts sequence }
{
    let number = sequence as u32;
    let cycles = if number < counts.highest % SEQUENCES {
        counts.cycles.wrapping_add(SEQUENCES)
    } else {
        counts.cycles
    };
    Counts {
        highest: number,
        cycles,
        ..counts
    }
}

// A packet after probation.
fn follow(counts: Counts, sequence: u16) -> Judged
    ensures { result ≡ followed counts sequence }
{
    let number = sequence as u32;
    let ahead = (number + SEQUENCES - counts.highest % SEQUENCES) % SEQUENCES;
    if ahead < MAX_DROPOUT {
        return receive(advance(counts, sequence));
    }
    if ahead <= SEQUENCES - MAX_MISORDER {
        if number == counts.bad {
            return receive(restart(counts, number));
        }
        return refuse(Counts {
            bad: after(number),
            ..counts
        });
    }
    receive(counts)
}

// A packet judged; a source's first one starts the counts.
pub fn judge(counts: Counts, sequence: u16) -> Judged
    ensures { result ≡ judged counts sequence }
{
    if counts.started == 0 {
        return probe(begin(sequence), sequence);
    }
    if counts.probation == 0 {
        return follow(counts, sequence);
    }
    probe(counts, sequence)
}
