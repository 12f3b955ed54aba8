// What hsp_read answers.
ghost use Rattle.std.specs.Prelude.{◌≡◌};
ghost use Rattle.read_packet.specs.Readings.{reading_numbers};
ghost use Rattle.c_answers.specs.Fields.{reading_fields};

use read_packet::reading::Packet;
use rtp::refusal::Fault;

// hsp_reading, the place of the fault not yet a word.
#[derive(Clone, Copy)]
pub struct ReadingFields {
    pub refusal: u32,
    pub offset: usize,
    pub rows: u32,
    pub marker: u32,
    pub sequence: u32,
    pub timestamp: u32,
    pub source: u32,
    pub mode_request: u32,
}

pub fn reading_fields(answer: Result<Packet, Fault>) -> ReadingFields
    ensures { reading_fields result ≡ reading_numbers answer }
{
    match answer {
        Err(fault) => {
            let reason = fault.refusal;
            ReadingFields {
                refusal: u32::from(reason),
                offset: fault.offset,
                rows: 0,
                marker: 0,
                sequence: 0,
                timestamp: 0,
                source: 0,
                mode_request: 0,
            }
        }
        Ok(found) => ReadingFields {
            refusal: 0,
            offset: 0,
            rows: found.rows,
            marker: found.marker as u32,
            sequence: found.sequence as u32,
            timestamp: found.timestamp,
            source: found.source,
            mode_request: found.mode_request as u32,
        },
    }
}
