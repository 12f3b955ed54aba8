// RFC 3550, appendix A.8: the jitter, in its whole-number form.
ghost use Rattle.std.specs.Prelude.{◌≡◌, ◌≤◌};
ghost use Rattle.report.specs.Sizes.{max_sum};
ghost use Rattle.report.specs.Jitter.{distance, smoothed};

use report_loss::signed;
use rtp::time;

// How far two transits differ: their difference modulo 2^32 read as signed, and its size.
pub(crate) fn transit_distance(transit: u32, last: u32) -> u32
    ensures { result ≡ distance transit last }
{
    signed::size(signed::as_signed(time::difference(transit, last)))
}

// The sum after a packet whose transit differs by d.
#[tactic(auto, unfolding(crate::specs::Jitter::smoothed))]
pub(crate) fn smooth(sum: u64, d: u32) -> u64
    requires { sum ≤ max_sum }
    ensures { result ≡ smoothed sum d }
{
    sum + (d as u64) - (sum + 8) / 16
}
