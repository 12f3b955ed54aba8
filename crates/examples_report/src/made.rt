// Records that no call leaves: what is refused, what is held to its range, and numbers beyond 16 bits.
use crate::example;
use report::record::Reception;
use report_sequence::record::Counts;

fn made(jitter: u64, probation: u32, highest: u32, received: u32) -> Reception {
    Reception {
        jitter,
        counts: Counts {
            probation,
            started: 7,
            base: 10,
            highest,
            bad: 65546,
            cycles: 0,
            received,
            expected_prior: 0,
            received_prior: 0,
        },
        transit: 5,
        transit_set: 9,
    }
}

// A probation of 3, and a sum of one more than the largest.
pub(crate) fn refused() {
    example::begin(b"refused");
    example::tell(example::number(made(0, 3, 10, 1), 11));
    example::tell(example::number(made(34359738361, 0, 10, 1), 11));
    example::tell(example::number(made(34359738360, 2, 10, 1), 11));
}

// The largest sum stays, if the transits lie 2^31 apart; the losses are held.
pub(crate) fn clamped() {
    example::begin(b"held");
    example::tell(example::hear(made(34359738360, 0, 10, 1), 11, 0, 2147483653));
    example::tell(made(0, 0, 8388616, 0));
    example::tell(made(0, 0, 8388617, 0));
    example::tell(made(0, 0, 8388618, 0));
    example::tell(made(0, 0, 10, 8388609));
    example::tell(made(0, 0, 10, 8388610));
    example::tell(made(0, 0, 2147483657, 0));
    example::tell(made(0, 0, 2147483658, 0));
}

// Of a highest number beyond 16 bits the packets are held to the 16; a bad one beyond them is no packet's.
pub(crate) fn wide() {
    example::begin(b"beyond 16 bits");
    example::tell(example::number(made(0, 0, 131071, 1), 0));
    example::tell(example::number(made(0, 1, 131071, 1), 0));
    example::tell(example::number(made(0, 0, 75536, 1), 10));
}
