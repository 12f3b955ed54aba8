// A payload written alone.
ghost use Rattle.std.specs.Prelude.{◌≡◌, ◌++◌, length};
ghost use Rattle.rtp.specs.Editions.{current};
ghost use Rattle.rtp.specs.Areas.{over};
ghost use Rattle.write_plan.specs.Lists.{rows_in};
ghost use Rattle.write_plan.specs.Plans.{plan};
ghost use Rattle.write_sizes.specs.Measures.{written_numbers};
ghost use Rattle.write_payload.specs.Writings.{planned_bytes, writing, encoded_numbers, encoded_bytes};
ghost use Rattle.write_payload.specs.Bytes.{frames};
ghost use Rattle.write_payload.specs.Room.{plan_bytes, ListRoom, PayloadRoom};

use crate::tables;
use formats::frames;
use rtp::refusal::Refusal;
use rtp::settings::Settings;
use rtp::sizes::ROW_WIDTH;
use rtp::time;
use write_plan::{lists, planning};
use write_sizes::asking;

// A planned list, whose table takes so many bytes: its table, then its frames.
fn put_list(asked: Settings, table: usize, rows: &[u32], bytes: &[u8], out: &mut [u8])
    requires { ListRoom current asked.format asked.channels table (length bytes.now) rows.now (length out.old) }
    ensures { out.new ≡
        over (plan_bytes asked.format (plan current asked.format asked.channels (rows_in rows.now)) ++ frames bytes.now (rows_in rows.now))
        out.old }
{
    let previous = time::difference(rows[0], frames::step_of(asked.format));
    let channels = asked.channels as usize;
    tables::put_table(asked.format, channels, previous, rows, out);
    tables::put_frames(rows, bytes, &mut out[table..]);
}

// The mode request, then a planned list, whose table takes so many bytes.
fn put_payload(
    asked: Settings,
    mode_request: u8,
    table: usize,
    rows: &[u32],
    bytes: &[u8],
    out: &mut [u8],
)
    requires { PayloadRoom current asked.format mode_request asked.channels table (length bytes.now) rows.now (length out.old) }
    ensures { out.new ≡
        over (encoded_bytes (planned_bytes asked.format mode_request bytes.now (rows_in rows.now)
        (plan current asked.format asked.channels (rows_in rows.now)))) out.old }
{
    let start = asking::put_request(asked.format, mode_request, out);
    put_list(asked, table, rows, bytes, &mut out[start..]);
}

// The payload of a list, whose rows point into `bytes`, over the front of the area; or a refusal and the area unchanged.
pub fn write_payload(
    asked: Settings,
    mode_request: u8,
    rows: &[u32],
    bytes: &[u8],
    out: &mut [u8],
) -> Result<usize, Refusal>
    ensures { (written_numbers result ≡
        encoded_numbers (writing current asked mode_request rows.now bytes.now (length out.old)))
        × (out.new ≡ over
        (encoded_bytes (writing current asked mode_request rows.now bytes.now (length out.old))) out.old) }
{
    if !asking::in_range(asked, mode_request) {
        return Err(Refusal::SettingsOutOfRange);
    }
    if lists::any_outside(rows, bytes.len()) {
        return Err(Refusal::RowOutsideBytes);
    }
    if rows.len() % ROW_WIDTH != 0 {
        return Err(Refusal::Unwritable);
    }
    let plan = planning::plan_list(asked.format, asked.channels, rows);
    let sizes = plan.ok_or(Refusal::Unwritable)?;
    let size = sizes.payload;
    if out.len() < size {
        return Err(Refusal::AreaTooShort);
    }
    put_payload(asked, mode_request, sizes.table, rows, bytes, out);
    Ok(size)
}
