// The three calls: a fresh record, a packet, a report.
ghost use Rattle.std.specs.Prelude.{◌≡◌, ◌≤◌};
ghost use Rattle.report.specs.Sizes.{max_sum};
ghost use Rattle.report.specs.Jitter.{arrived};
ghost use Rattle.report.specs.Calls.{fresh, packet_numbers, packet_call, report_numbers, report_call, block_of};

use crate::record::Reception;
use crate::{jitter, record};
use report_loss::losses;
use report_sequence::record::Counts;
use report_sequence::sequence;
use rtp::refusal::Refusal;
use rtp::time;

// What a call answers, and the record that it leaves.
#[derive(Clone, Copy, Debug, PartialEq, Eq)]
pub struct Answered<A> {
    pub answer: A,
    pub reception: Reception,
}

// The report block of RFC 3550, but for source and times.
#[derive(Clone, Copy, Debug, Default, PartialEq, Eq)]
pub struct ReportBlock {
    pub fraction_lost: u32,
    pub cumulative_lost: i32,
    pub highest_sequence: u32,
    pub jitter: u32,
}

// A record of no packet yet.
pub fn new() -> Reception
    ensures { result ≡ fresh }
{
    Reception::default()
}

// A valid packet's transit; from the second on it enters the jitter.
#[tactic(auto, unfolding(crate::specs::Jitter::arrived))]
fn arrive(reception: Reception, counts: Counts, transit: u32) -> Reception
    requires { reception.jitter ≤ max_sum }
    ensures { result ≡ arrived reception counts transit }
{
    if reception.transit_set == 0 {
        return Reception {
            counts,
            transit,
            transit_set: 1,
            ..reception
        };
    }
    let d = jitter::transit_distance(transit, reception.transit);
    Reception {
        jitter: jitter::smooth(reception.jitter, d),
        counts,
        transit,
        ..reception
    }
}

// A packet received: its sequence number, its timestamp, and the arrival clock in ticks. Is it valid?
pub fn packet(
    reception: Reception,
    sequence: u16,
    timestamp: u32,
    arrival: u32,
) -> Answered<Result<bool, Refusal>>
    ensures { record { answer = packet_numbers result.answer; reception = result.reception } ≡ packet_call reception sequence timestamp arrival }
{
    if !record::well_formed(reception) {
        return Answered {
            answer: Err(Refusal::Malformed),
            reception,
        };
    }
    let judged = sequence::judge(reception.counts, sequence);
    if judged.valid {
        let transit = time::difference(arrival, timestamp);
        return Answered {
            answer: Ok(true),
            reception: arrive(reception, judged.counts, transit),
        };
    }
    Answered {
        answer: Ok(false),
        reception: Reception {
            counts: judged.counts,
            ..reception
        },
    }
}

fn block_of(reception: Reception) -> ReportBlock
    requires { reception.jitter ≤ max_sum }
    ensures { result ≡ block_of reception }
{
    let counts = reception.counts;
    ReportBlock {
        fraction_lost: losses::fraction_lost(counts),
        cumulative_lost: losses::cumulative_lost(counts),
        highest_sequence: losses::extended_highest(counts),
        jitter: (reception.jitter / 16) as u32,
    }
}

// A report: the block since the last one; before the first valid packet it is all zeros and nothing changes.
pub fn report(reception: Reception) -> Answered<Result<ReportBlock, Refusal>>
    ensures { record { answer = report_numbers result.answer; reception = result.reception } ≡ report_call reception }
{
    if !record::well_formed(reception) {
        return Answered {
            answer: Err(Refusal::Malformed),
            reception,
        };
    }
    if reception.transit_set == 0 {
        return Answered {
            answer: Ok(ReportBlock::default()),
            reception,
        };
    }
    Answered {
        answer: Ok(block_of(reception)),
        reception: Reception {
            counts: losses::note(reception.counts),
            ..reception
        },
    }
}
