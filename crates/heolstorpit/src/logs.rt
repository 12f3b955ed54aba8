// hsp_log_open, hsp_log_step and hsp_log_write: kept logs.
ghost use Rattle.std.specs.Prelude.{◌≡◌, length};
ghost use Rattle.rtp.specs.Editions.{current};
ghost use Rattle.rtp.specs.Areas.{over};
ghost use Rattle.log_walk.specs.Opening.{open_call};
ghost use Rattle.log_walk.specs.Stepping.{step_call};
ghost use Rattle.log_writer.specs.FieldBytes.{put_numbers, put_bytes};
ghost use Rattle.log_writer.specs.Writings.{writing};
ghost use Rattle.heolstorpit.specs.LogAnswers.{opened_answer, opened_outcome, stepped_answer, stepped_outcome, log_written_answer};

use c_log_answers::log_answers;
use log_walk::opening::Cursor;
use log_walk::{opening, stepping};
use log_writer::writing;
use rtp::settings::Settings;

// hsp_log_opened: the refusal number or 0, and the cursor, zeros on refusal.
#[repr(C)]
#[derive(Clone, Copy)]
pub struct HspLogOpened {
    pub refusal: u32,
    pub cursor: Cursor,
}

// hsp_log_stepped: the refusal number or 0, 1 at the end, then the frame, zeros where there is none; the cursor behind it, or as given.
#[repr(C)]
#[derive(Clone, Copy)]
pub struct HspLogStepped {
    pub refusal: u32,
    pub end: u32,
    pub time: u32,
    pub channel: u32,
    pub frame_class: u32,
    pub start: usize,
    pub length: usize,
    pub cursor: Cursor,
}

// hsp_log_written: the refusal number or 0, and the byte count, 0 on refusal.
#[repr(C)]
#[derive(Clone, Copy)]
pub struct HspLogWritten {
    pub refusal: u32,
    pub length: usize,
}

#[unsafe(no_mangle)]
pub extern "C" fn hsp_log_open(log: &[u8]) -> HspLogOpened
    ensures { opened_answer result ≡ opened_outcome (open_call current log.now) }
{
    let opened = opening::open(log);
    let cursor = opened.cursor;
    let answer = opened.answer;
    HspLogOpened {
        refusal: log_answers::opened_number(answer),
        cursor,
    }
}

#[unsafe(no_mangle)]
pub extern "C" fn hsp_log_step(cursor: Cursor, log: &[u8]) -> HspLogStepped
    ensures { stepped_answer result ≡ stepped_outcome (step_call current cursor log.now) }
{
    let stepped = stepping::step(cursor, log);
    let left = stepped.cursor;
    let answer = stepped.answer;
    let fields = log_answers::stepped_fields(answer);
    HspLogStepped {
        refusal: fields.refusal,
        end: fields.end,
        time: fields.time,
        channel: fields.channel,
        frame_class: fields.frame_class,
        start: fields.start,
        length: fields.length,
        cursor: left,
    }
}

#[unsafe(no_mangle)]
pub extern "C" fn hsp_log_write(
    settings: Settings,
    rows: &[u32],
    bytes: &[u8],
    out: &mut [u8],
) -> HspLogWritten
    ensures { (log_written_answer result ≡
        put_numbers (writing current settings rows.now bytes.now (length out.old)))
        × (out.new ≡ over
        (put_bytes (writing current settings rows.now bytes.now (length out.old))) out.old) }
{
    let answer = writing::write(settings, rows, bytes, out);
    let fields = log_answers::log_written_fields(answer);
    HspLogWritten {
        refusal: fields.refusal,
        length: fields.length,
    }
}
