// hsp_reception_new, hsp_reception_packet and hsp_reception_report: the reception reports of RFC 3550.
ghost use Rattle.std.specs.Prelude.{◌≡◌};
ghost use Rattle.report.specs.Calls.{fresh, packet_call, report_call};
ghost use Rattle.heolstorpit.specs.ReceptionAnswers.{received_answer, reported_answer};

use c_answers::reception_answers;
use report::calls;
use report::record::Reception;

// hsp_received: the refusal number or 0, and whether the packet is valid.
#[repr(C)]
#[derive(Clone, Copy)]
pub struct HspReceived {
    pub refusal: u32,
    pub valid: u32,
    pub reception: Reception,
}

// hsp_reported: the refusal number or 0; then the report block, zeros on refusal.
#[repr(C)]
#[derive(Clone, Copy)]
pub struct HspReported {
    pub refusal: u32,
    pub fraction_lost: u32,
    pub cumulative_lost: i32,
    pub highest_sequence: u32,
    pub jitter: u32,
    pub reception: Reception,
}

#[unsafe(no_mangle)]
pub extern "C" fn hsp_reception_new() -> Reception
    ensures { result ≡ fresh }
{
    calls::new()
}

#[unsafe(no_mangle)]
pub extern "C" fn hsp_reception_packet(
    reception: Reception,
    sequence: u16,
    timestamp: u32,
    arrival: u32,
) -> HspReceived
    ensures { received_answer result ≡ packet_call reception sequence timestamp arrival }
{
    let received = calls::packet(reception, sequence, timestamp, arrival);
    let left = received.reception;
    let answer = received.answer;
    let fields = reception_answers::received_fields(answer);
    HspReceived {
        refusal: fields.refusal,
        valid: fields.valid,
        reception: left,
    }
}

#[unsafe(no_mangle)]
pub extern "C" fn hsp_reception_report(reception: Reception) -> HspReported
    ensures { reported_answer result ≡ report_call reception }
{
    let reported = calls::report(reception);
    let left = reported.reception;
    let answer = reported.answer;
    let fields = reception_answers::reported_fields(answer);
    HspReported {
        refusal: fields.refusal,
        fraction_lost: fields.fraction_lost,
        cumulative_lost: fields.cumulative_lost,
        highest_sequence: fields.highest_sequence,
        jitter: fields.jitter,
        reception: left,
    }
}
