// Appendix A.1 and A.3: which packets are valid, and what is lost.
use crate::example;

// Reports before the first valid packet.
pub(crate) fn none_valid() {
    let source = example::begin(b"none valid");
    let source = example::tell(source);
    let source = example::number(source, 7);
    example::tell(source);
}

// 0 follows 65535 in probation.
pub(crate) fn in_probation() {
    let source = example::begin(b"across 65535 in probation");
    let source = example::numbers(source, &[65535, 0, 1]);
    example::tell(source);
}

// And after it.
pub(crate) fn after_probation() {
    let source = example::begin(b"across 65535 after probation");
    let source = example::numbers(source, &[65533, 65534, 65535]);
    let source = example::tell(source);
    let source = example::numbers(source, &[0, 1, 2]);
    example::tell(source);
}

// A packet out of sequence starts probation over, of which it is the first.
pub(crate) fn probation_again() {
    let source = example::begin(b"probation again");
    let source = example::numbers(source, &[10, 12, 14]);
    let source = example::tell(source);
    let source = example::numbers(source, &[15, 16, 17]);
    example::tell(source);
}

// 103, 104 and 107 to 109 are lost; then nothing; then one late packet comes, and every other one is lost.
pub(crate) fn losses() {
    let source = example::begin(b"losses");
    let source = example::numbers(source, &[99, 100, 101, 102, 105, 106, 110, 111, 112]);
    let source = example::tell(source);
    let source = example::tell(source);
    let source = example::numbers(source, &[113, 114, 115]);
    let source = example::tell(source);
    let source = example::numbers(source, &[107, 117, 119, 121, 123, 125]);
    example::tell(source);
}

// More packets come than were sent: fewer than none are lost.
pub(crate) fn repeats() {
    let source = example::begin(b"repeats");
    let source = example::numbers(source, &[1, 2, 3, 3, 3, 2, 1, 4, 4]);
    let source = example::tell(source);
    let source = example::numbers(source, &[5, 6, 8]);
    example::tell(source);
}

// The largest steps that are in order, and the first that are not.
pub(crate) fn steps() {
    let source = example::begin(b"steps");
    let source = example::numbers(
        source,
        &[1000, 1001, 4000, 7000, 3901, 3900, 4000, 6999, 4000],
    );
    example::tell(source);
}

// A source that starts again elsewhere is believed when the next packet of its new row comes, and not before.
pub(crate) fn restart() {
    let source = example::begin(b"restart");
    let source = example::numbers(source, &[5, 6, 9]);
    let source = example::tell(source);
    let source = example::numbers(source, &[30000, 40000, 30001, 10, 65535, 0]);
    let source = example::tell(source);
    let source = example::numbers(source, &[20000, 20001, 20003]);
    example::tell(source);
}

// Over several cycles, with none lost and with nearly all: more than 24 bits can say.
pub(crate) fn long_rows() {
    let source = example::begin(b"long rows");
    let source = example::row(source, 65000, 1, 1000);
    let source = example::tell(source);
    let source = example::row(source, 3462, 2999, 1500);
    let source = example::tell(source);
    let source = example::row(source, 45514, 2999, 1500);
    example::tell(source);
}
