// What hsp_log_open, hsp_log_step and hsp_log_write answer, but for the cursor.
ghost use Rattle.std.specs.Prelude.{◌≡◌};
ghost use Rattle.log_walk.specs.Opening.{open_numbers};
ghost use Rattle.log_walk.specs.Stepping.{step_numbers};
ghost use Rattle.log_writer.specs.FieldBytes.{written_numbers};
ghost use Rattle.c_log_answers.specs.Fields.{stepped_fields, placeless, log_written_fields};

use log_walk::frames::Shown;
use rtp::refusal::{Fault, Refusal};
use rtp::settings::Settings;

// The refusal number of hsp_log_opened, or 0.
pub fn opened_number(answer: Result<Settings, Refusal>) -> u32
    ensures { result ≡ (open_numbers answer).refusal }
{
    match answer {
        Ok(_) => 0,
        Err(reason) => u32::from(reason),
    }
}

// hsp_log_stepped.
#[derive(Clone, Copy, Debug, Default, PartialEq, Eq)]
pub struct SteppedFields {
    pub refusal: u32,
    pub end: u32,
    pub time: u32,
    pub channel: u32,
    pub frame_class: u32,
    pub start: usize,
    pub length: usize,
}

pub fn stepped_fields(answer: Result<Option<Shown>, Fault>) -> SteppedFields
    ensures { stepped_fields result ≡ placeless (step_numbers answer) }
{
    match answer {
        Ok(Some(f)) => SteppedFields {
            time: f.time,
            channel: f.channel as u32,
            frame_class: f.class as u32,
            start: f.start,
            length: f.length,
            ..SteppedFields::default()
        },
        Ok(None) => SteppedFields {
            end: 1,
            ..SteppedFields::default()
        },
        Err(fault) => SteppedFields {
            refusal: u32::from(fault.refusal),
            ..SteppedFields::default()
        },
    }
}

// hsp_log_written.
#[derive(Clone, Copy, Debug, PartialEq, Eq)]
pub struct LogWrittenFields {
    pub refusal: u32,
    pub length: usize,
}

pub fn log_written_fields(answer: Result<usize, Refusal>) -> LogWrittenFields
    ensures { log_written_fields result ≡ written_numbers answer }
{
    match answer {
        Err(why) => LogWrittenFields {
            refusal: u32::from(why),
            length: 0,
        },
        Ok(count) => LogWrittenFields {
            refusal: 0,
            length: count,
        },
    }
}
