// A payload measured: its bytes counted, and none written.
ghost use Rattle.std.specs.Prelude.{◌≡◌};
ghost use Rattle.rtp.specs.Editions.{current};
ghost use Rattle.write_sizes.specs.Measures.{written_numbers, measured};

use rtp::refusal::Refusal;
use rtp::settings;
use rtp::settings::Settings;
use rtp::sizes::ROW_WIDTH;
use write_plan::planning;

// The bytes that a list's payload takes, where its rows lie inside the bytes that they point into.
pub fn measure_payload(asked: Settings, rows: &[u32]) -> Result<usize, Refusal>
    ensures { written_numbers result ≡ measured current asked rows.now }
{
    if !settings::in_range(asked) {
        return Err(Refusal::SettingsOutOfRange);
    }
    if rows.len() % ROW_WIDTH != 0 {
        return Err(Refusal::Unwritable);
    }
    let plan = planning::plan_list(asked.format, asked.channels, rows);
    let sizes = plan.ok_or(Refusal::Unwritable)?;
    Ok(sizes.payload)
}
