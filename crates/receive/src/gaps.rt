// The gaps between the frames drawn.
use rtp::time;

// The time of the last frame drawn, if one was; how many gaps there are so far, and the frame-blocks missing in them all.
#[derive(Clone, Copy, Default)]
pub(crate) struct Gaps {
    pub last: Option<u32>,
    pub count: u64,
    pub missing: u64,
}

// The frame-blocks missing between the frames of two times: one at each time that is a whole number of steps after the first, and before
// the second, round the wrap.
fn missing_between(from: u32, to: u32, step: u32) -> u32 {
    let ticks = time::difference(to, from);
    // The step is never 0: every format has one.
    if ticks == 0 || step == 0 {
        return 0;
    }
    (ticks - 1) / step
}

impl Gaps {
    // The frame-blocks missing before a frame of this time, the next that is drawn.
    pub(crate) fn missing_before(&self, time: u32, step: u32) -> u32 {
        match self.last {
            Some(last) => missing_between(last, time, step),
            None => 0,
        }
    }

    // A frame of this time is drawn, after so many missing frame-blocks.
    pub(crate) fn add(&mut self, time: u32, missing: u32) {
        self.last = Some(time);
        if missing > 0 {
            self.count = self.count.wrapping_add(1);
            self.missing = self.missing.wrapping_add(missing as u64);
        }
    }
}
