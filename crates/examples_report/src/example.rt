// A source, its packets and reports, printed.
use examples_text::printing::print;
use report::calls;
use report::calls::ReportBlock;
use report::record::Reception;
use rtp::refusal::Refusal;

fn print_signed(text: &[u8], value: i32) {
    io::write_all(1, text);
    if value < 0 {
        io::write_all(1, b"-");
    }
    io::print_decimal(1, value.unsigned_abs() as u64);
}

// A fresh record, under a label.
pub(crate) fn begin(label: &[u8]) -> Reception {
    io::write_all(1, label);
    io::write_all(1, b"\n");
    calls::new()
}

fn print_answer(answer: Result<bool, Refusal>) {
    match answer {
        Ok(true) => {
            io::write_all(1, b": valid\n");
        }
        Ok(false) => {
            io::write_all(1, b": not valid\n");
        }
        Err(why) => {
            print(b": refusal ", u32::from(why));
            io::write_all(1, b"\n");
        }
    }
}

// A packet of a sequence number and a timestamp, and when it arrives.
pub(crate) fn hear(source: Reception, sequence: u16, timestamp: u32, arrival: u32) -> Reception {
    print(b"packet ", sequence as u32);
    print(b" at ", timestamp);
    print(b", arrived ", arrival);
    let heard = calls::packet(source, sequence, timestamp, arrival);
    print_answer(heard.answer);
    heard.reception
}

// A packet whose times are all 0.
pub(crate) fn number(source: Reception, sequence: u16) -> Reception {
    hear(source, sequence, 0, 0)
}

// One such packet after the other.
pub(crate) fn numbers(source: Reception, sequences: &[u16]) -> Reception {
    let mut reached = source;
    for sequence in sequences {
        reached = number(reached, *sequence);
    }
    reached
}

fn hear_row(source: Reception, from: u16, step: u16, count: u32) -> Reception {
    let mut reached = source;
    let mut sequence = from;
    for _ in 0..count {
        reached = calls::packet(reached, sequence, 0, 0).reception;
        sequence = sequence.wrapping_add(step);
    }
    reached
}

// So many packets, each `step` after the one before, the first at `from`, none printed.
pub(crate) fn row(source: Reception, from: u16, step: u16, count: u32) -> Reception {
    print(b"packets ", count);
    print(b" from ", from as u32);
    print(b" by ", step as u32);
    io::write_all(1, b"\n");
    hear_row(source, from, step, count)
}

fn print_block(block: ReportBlock) {
    print(b"report: fraction lost ", block.fraction_lost);
    print_signed(b", cumulative lost ", block.cumulative_lost);
    print(b", highest sequence ", block.highest_sequence);
    print(b", jitter ", block.jitter);
}

// A report.
pub(crate) fn tell(source: Reception) -> Reception {
    let told = calls::report(source);
    match told.answer {
        Ok(block) => print_block(block),
        Err(why) => print(b"report: refusal ", u32::from(why)),
    }
    io::write_all(1, b"\n");
    told.reception
}
