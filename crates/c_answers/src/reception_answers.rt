// What hsp_reception_packet and hsp_reception_report answer, but for the record.
ghost use Rattle.std.specs.Prelude.{◌≡◌};
ghost use Rattle.report.specs.Calls.{packet_numbers, report_numbers};
ghost use Rattle.c_answers.specs.Fields.{received_fields, reported_fields};

use report::calls::ReportBlock;
use rtp::refusal::Refusal;

// hsp_received.
#[derive(Clone, Copy, Debug, PartialEq, Eq)]
pub struct ReceivedFields {
    pub refusal: u32,
    pub valid: u32,
}

pub fn received_fields(answer: Result<bool, Refusal>) -> ReceivedFields
    ensures { received_fields result ≡ packet_numbers answer }
{
    match answer {
        Ok(valid) => ReceivedFields {
            refusal: 0,
            valid: valid as u32,
        },
        Err(reason) => ReceivedFields {
            refusal: u32::from(reason),
            valid: 0,
        },
    }
}

// hsp_reported.
#[derive(Clone, Copy, Debug, Default, PartialEq, Eq)]
pub struct ReportedFields {
    pub refusal: u32,
    pub fraction_lost: u32,
    pub cumulative_lost: i32,
    pub highest_sequence: u32,
    pub jitter: u32,
}

pub fn reported_fields(answer: Result<ReportBlock, Refusal>) -> ReportedFields
    ensures { reported_fields result ≡ report_numbers answer }
{
    match answer {
        Ok(block) => ReportedFields {
            refusal: 0,
            fraction_lost: block.fraction_lost,
            cumulative_lost: block.cumulative_lost,
            highest_sequence: block.highest_sequence,
            jitter: block.jitter,
        },
        Err(reason) => ReportedFields {
            refusal: u32::from(reason),
            ..ReportedFields::default()
        },
    }
}
