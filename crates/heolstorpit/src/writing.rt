// hsp_write_payload: a payload written alone.
ghost use Rattle.std.specs.Prelude.{◌≡◌, length};
ghost use Rattle.rtp.specs.Editions.{current};
ghost use Rattle.rtp.specs.Areas.{over};
ghost use Rattle.write_payload.specs.Writings.{writing, encoded_numbers, encoded_bytes};
ghost use Rattle.heolstorpit.specs.Answers.{written_answer};

use c_answers::write_answers;
use rtp::settings::Settings;
use write_payload::writing;

// hsp_written: the refusal number or 0, and the byte count, 0 on refusal.
#[repr(C)]
#[derive(Clone, Copy)]
pub struct HspWritten {
    pub refusal: u32,
    pub length: u32,
}

#[unsafe(no_mangle)]
pub extern "C" fn hsp_write_payload(
    settings: Settings,
    mode_request: u8,
    rows: &[u32],
    bytes: &[u8],
    out: &mut [u8],
) -> HspWritten
    ensures { (written_answer result ≡
        encoded_numbers (writing current settings mode_request rows.now bytes.now (length out.old)))
        × (out.new ≡ over
        (encoded_bytes (writing current settings mode_request rows.now bytes.now (length out.old))) out.old) }
{
    let answer = writing::write_payload(settings, mode_request, rows, bytes, out);
    let fields = write_answers::written_fields(answer);
    HspWritten {
        refusal: fields.refusal,
        length: fields.length as u32,
    }
}
