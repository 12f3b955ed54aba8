// hsp_read: a packet read into frame rows.
ghost use Rattle.std.specs.Prelude.{◌≡◌, length};
ghost use Rattle.rtp.specs.Editions.{current};
ghost use Rattle.rtp.specs.Areas.{over};
ghost use Rattle.read_packet.specs.Readings.{reading, outcome_numbers, outcome_words};
ghost use Rattle.heolstorpit.specs.Answers.{reading_answer};

use c_answers::read_answers;
use read_packet::reading;
use rtp::settings::Settings;

// hsp_reading: the refusal number or 0; for 6 to 10 the place of the fault as an offset in the packet, else 0; then the row count, the header's fields and
// the mode request, all 0 on refusal.
#[repr(C)]
#[derive(Clone, Copy)]
pub struct HspReading {
    pub refusal: u32,
    pub offset: u32,
    pub rows: u32,
    pub marker: u32,
    pub sequence: u32,
    pub timestamp: u32,
    pub source: u32,
    pub mode_request: u32,
}

#[unsafe(no_mangle)]
pub extern "C" fn hsp_read(settings: Settings, packet: &[u8], rows: &mut [u32]) -> HspReading
    ensures { (reading_answer result ≡ outcome_numbers (reading current settings (length rows.old) packet.now))
        × (rows.new ≡ over (outcome_words (reading current settings (length rows.old) packet.now)) rows.old) }
{
    let answer = reading::read(settings, packet, rows);
    let fields = read_answers::reading_fields(answer);
    HspReading {
        refusal: fields.refusal,
        offset: fields.offset as u32,
        rows: fields.rows,
        marker: fields.marker,
        sequence: fields.sequence,
        timestamp: fields.timestamp,
        source: fields.source,
        mode_request: fields.mode_request,
    }
}
