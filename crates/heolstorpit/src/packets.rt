// hsp_write_packet: a packet written.
ghost use Rattle.std.specs.Prelude.{◌≡◌, length};
ghost use Rattle.rtp.specs.Editions.{current};
ghost use Rattle.rtp.specs.Areas.{over};
ghost use Rattle.write_payload.specs.Writings.{encoded_numbers, encoded_bytes};
ghost use Rattle.write_packet.specs.Packets.{sending};
ghost use Rattle.heolstorpit.specs.Answers.{written_answer};

use crate::writing::HspWritten;
use c_answers::write_answers;
use rtp::settings::Settings;
use write_packet::packets;

// An hsp_written, as hsp_write_payload answers.
#[unsafe(no_mangle)]
pub extern "C" fn hsp_write_packet(
    settings: Settings,
    mode_request: u8,
    marker: u8,
    sequence: u16,
    source: u32,
    counts: &[u32],
    rows: &[u32],
    bytes: &[u8],
    out: &mut [u8],
) -> HspWritten
    ensures { (written_answer result ≡
        encoded_numbers (sending current settings mode_request (record { marker = marker; sequence = sequence; source = source }) counts.now rows.now
        bytes.now (length out.old)))
        × (out.new ≡ over
        (encoded_bytes (sending current settings mode_request (record { marker = marker; sequence = sequence; source = source }) counts.now
        rows.now bytes.now (length out.old))) out.old) }
{
    let answer = packets::write_packet(
        settings,
        mode_request,
        marker,
        sequence,
        source,
        counts,
        rows,
        bytes,
        out,
    );
    let fields = write_answers::written_fields(answer);
    HspWritten {
        refusal: fields.refusal,
        length: fields.length as u32,
    }
}
