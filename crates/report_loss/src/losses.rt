// RFC 3550, appendix A.3: the packets expected and lost.
ghost use Rattle.std.specs.Prelude.{◌≡◌};
ghost use Rattle.report_loss.specs.Report.{extended, expected, fraction, fraction_lost, held, cumulative_lost, noted};

use crate::signed;
use report_sequence::record::Counts;
use rtp::time;

// The least and the most packets lost that a report says: 24 bits signed.
const LEAST_LOST: i32 = -8388608;

const MOST_LOST: i32 = 8388607;

// The fraction lost is in parts of 256, at most 255.
const MOST_FRACTION: u64 = 255;

// The highest sequence number with its cycles.
#[tactic(auto, unfolding(crate::specs::Report::extended))]
pub fn extended_highest(counts: Counts) -> u32
    ensures { result ≡ extended counts }
{
    counts.cycles.wrapping_add(counts.highest)
}

// The packets expected so far.
#[tactic(auto, unfolding(crate::specs::Report::expected))]
fn expected_so_far(counts: Counts) -> u32
    ensures { result ≡ expected counts }
{
    let past = time::difference(extended_highest(counts), counts.base);
    past.wrapping_add(1)
}

// Lost of expected, in parts of 256.
fn part_lost(lost: i32, due: i32) -> u32
    ensures { result ≡ fraction lost due }
{
    if lost <= 0 || due <= 0 {
        return 0;
    }
    let part = 256 * (lost.unsigned_abs() as u64) / (due.unsigned_abs() as u64);
    part.min(MOST_FRACTION) as u32
}

// The fraction lost since the last report.
pub fn fraction_lost(counts: Counts) -> u32
    ensures { result ≡ fraction_lost counts }
{
    let due = time::difference(expected_so_far(counts), counts.expected_prior);
    let came = time::difference(counts.received, counts.received_prior);
    let lost = time::difference(due, came);
    part_lost(signed::as_signed(lost), signed::as_signed(due))
}

// Held to 24 bits.
fn hold(lost: i32) -> i32
    ensures { result ≡ held lost }
{
    lost.clamp(LEAST_LOST, MOST_LOST)
}

// The packets lost since the counts began, held to 24 bits.
pub fn cumulative_lost(counts: Counts) -> i32
    ensures { result ≡ cumulative_lost counts }
{
    let lost = time::difference(expected_so_far(counts), counts.received);
    hold(signed::as_signed(lost))
}

// The counts after a report: it notes what was expected and received.
#[tactic(auto, unfolding(crate::specs::Report::noted))]
pub fn note(counts: Counts) -> Counts
    ensures { result ≡ noted counts }
{
    Counts {
        expected_prior: expected_so_far(counts),
        received_prior: counts.received,
        ..counts
    }
}
