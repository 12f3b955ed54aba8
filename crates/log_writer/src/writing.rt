// A whole log, written of rows.
ghost use Rattle.std.specs.Prelude.{◌≡◌, length, ◌<◌, ◌^◌};
ghost use Rattle.rtp.specs.Editions.{current};
ghost use Rattle.rtp.specs.Areas.{over};
ghost use Rattle.write_plan.specs.Lists.{rows_in};
ghost use Rattle.write_plan.specs.Room.{row_as};
ghost use Rattle.log_writer.specs.FieldBytes.{written_numbers, put_numbers, put_bytes};
ghost use Rattle.log_writer.specs.Writings.{row_fits, row_bytes, rows_bytes, log_bytes, all_fit, loggable, writing};
ghost use Rattle.log_writer.specs.Room.{rows_size, RowRoom, RowsRoom, LogRoom};

use crate::field_bytes;
use crate::field_bytes::{FRAME_START, LAST_SIZE, MAX_FRAMES};
use log_fields::fields;
use log_fields::fields::FIRST_SIZE;
use row_tags::tagging;
use rtp::refusal::Refusal;
use rtp::settings;
use rtp::settings::Settings;
use rtp::sizes::ROW_WIDTH;
use write_plan::lists;
use write_plan::lists::RowWords;

// Whether the settings allow a row, and it has data.
fn row_fits(asked: Settings, row: RowWords) -> bool
    ensures { result ≡ row_fits asked (row_as row) }
{
    let channel = tagging::tag_channel(row.tag);
    let class = tagging::tag_class(row.tag);
    fields::frame_fits(asked, channel, class, row.length)
}

// Whether they allow every whole row.
fn all_fit(asked: Settings, rows: &[u32]) -> bool
    ensures { result ≡ all_fit asked (rows_in rows.now) }
{
    for words in rows.chunks_exact(ROW_WIDTH) {
        if !row_fits(asked, lists::first_row(words)) {
            return false;
        }
    }
    true
}

// Whether the rows can be kept in a log.
fn can_log(asked: Settings, rows: &[u32]) -> bool
    ensures { result ≡ loggable asked rows.now }
{
    if rows.len() % ROW_WIDTH != 0 {
        return false;
    }
    if MAX_FRAMES < rows.len() / ROW_WIDTH {
        return false;
    }
    all_fit(asked, rows)
}

// The bytes of the rows' fields.
fn rows_size(rows: &[u32]) -> usize
    requires { rows_size (rows_in rows.now) < 2 ^ 63 }
    ensures { result ≡ rows_size (rows_in rows.now) }
{
    let mut size = 0;
    for words in rows.chunks_exact(ROW_WIDTH) {
        size += FRAME_START + words[3] as usize;
    }
    size
}

// The field of a row's frame.
fn lay_row(row: RowWords, bytes: &[u8], out: &mut [u8])
    requires { RowRoom (row_as row) (length bytes.now) (length out.old) }
    ensures { out.new ≡ over (row_bytes bytes.now (row_as row)) out.old }
{
    let channel = tagging::tag_channel(row.tag) as u8;
    let class = tagging::tag_class(row.tag) as u8;
    let start = row.start as usize;
    let end = start + row.length as usize;
    field_bytes::lay_frame(row.time, channel, class, &bytes[start..end], out);
}

// The fields of the rows' frames, one after another.
fn lay_rows(rows: &[u32], bytes: &[u8], out: &mut [u8])
    requires { RowsRoom (rows_in rows.now) (length bytes.now) (length out.old) }
    ensures { out.new ≡ over (rows_bytes bytes.now (rows_in rows.now)) out.old }
{
    let mut place = 0;
    for words in rows.chunks_exact(ROW_WIDTH) {
        let row = lists::first_row(words);
        lay_row(row, bytes, &mut out[place..]);
        place += FRAME_START + row.length as usize;
    }
}

// The log of the rows, whose fields take `inner` bytes.
fn lay_log(asked: Settings, rows: &[u32], bytes: &[u8], inner: usize, out: &mut [u8])
    requires { LogRoom rows.now (length bytes.now) inner (length out.old) }
    ensures { out.new ≡ over (log_bytes asked bytes.now (rows_in rows.now)) out.old }
{
    field_bytes::lay_settings(asked, out);
    lay_rows(rows, bytes, &mut out[FIRST_SIZE..]);
    let end = FIRST_SIZE + inner;
    let count = (rows.len() / ROW_WIDTH) as u32;
    field_bytes::lay_end(count, &mut out[end..]);
}

// The log of the rows, whose frames lie in `bytes`, over the front of the area; or a refusal and the area unchanged.
pub fn write(asked: Settings, rows: &[u32], bytes: &[u8], out: &mut [u8]) -> Result<usize, Refusal>
    ensures { (written_numbers result ≡
        put_numbers (writing current asked rows.now bytes.now (length out.old)))
        × (out.new ≡ over
        (put_bytes (writing current asked rows.now bytes.now (length out.old))) out.old) }
{
    if !settings::in_range(asked) {
        return Err(Refusal::SettingsOutOfRange);
    }
    if lists::any_outside(rows, bytes.len()) {
        return Err(Refusal::RowOutsideBytes);
    }
    if !can_log(asked, rows) {
        return Err(Refusal::NotAllowed);
    }
    let inner = rows_size(rows);
    let size = FIRST_SIZE + inner + LAST_SIZE;
    if out.len() < size {
        return Err(Refusal::AreaTooShort);
    }
    lay_log(asked, rows, bytes, inner, out);
    Ok(size)
}
