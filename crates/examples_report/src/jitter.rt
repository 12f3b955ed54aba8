// Appendix A.8: the jitter.
use crate::example;

// Timestamp and arrival clock wrap, each by itself.
pub(crate) fn clock_wraps() {
    let source = example::begin(b"clocks wrap");
    let source = example::hear(source, 1, 4294966336, 4294967000);
    let source = example::hear(source, 2, 0, 700);
    let source = example::hear(source, 3, 960, 1500);
    let source = example::tell(source);
    let source = example::hear(source, 4, 4294967295, 0);
    let source = example::hear(source, 5, 0, 4294967295);
    example::tell(source);
}

// The arrival clock goes back; a late and a repeated packet enter the jitter too.
pub(crate) fn clock_back() {
    let source = example::begin(b"clock back");
    let source = example::hear(source, 10, 0, 5000);
    let source = example::hear(source, 11, 160, 5160);
    let source = example::hear(source, 12, 320, 1000);
    let source = example::tell(source);
    let source = example::hear(source, 11, 160, 6000);
    let source = example::hear(source, 11, 160, 6000);
    example::tell(source);
}

// Transits 2^31 apart: the distance is 2^31, whichever comes first.
pub(crate) fn lowest() {
    let source = example::begin(b"lowest difference");
    let source = example::hear(source, 1, 0, 0);
    let source = example::hear(source, 2, 0, 0);
    let source = example::hear(source, 3, 0, 2147483648);
    let source = example::tell(source);
    let source = example::hear(source, 4, 0, 0);
    let source = example::tell(source);
    let source = example::hear(source, 5, 0, 2147483647);
    let source = example::hear(source, 6, 1, 0);
    example::tell(source);
}

// A packet that is not valid does not enter the jitter; the one that starts the counts anew does.
pub(crate) fn not_valid() {
    let source = example::begin(b"jitter of packets that are not valid");
    let source = example::hear(source, 1, 0, 9000);
    let source = example::hear(source, 2, 0, 100);
    let source = example::hear(source, 3, 0, 116);
    let source = example::tell(source);
    let source = example::hear(source, 50000, 0, 70000);
    let source = example::tell(source);
    let source = example::hear(source, 50001, 0, 132);
    example::tell(source);
}
