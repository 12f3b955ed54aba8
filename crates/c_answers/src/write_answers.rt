// What hsp_write_payload and hsp_write_packet answer.
ghost use Rattle.std.specs.Prelude.{◌≡◌};
ghost use Rattle.write_sizes.specs.Measures.{written_numbers};
ghost use Rattle.c_answers.specs.Fields.{written_fields};

use rtp::refusal::Refusal;

// hsp_written, the byte count not yet a word.
#[derive(Clone, Copy)]
pub struct WrittenFields {
    pub refusal: u32,
    pub length: usize,
}

pub fn written_fields(answer: Result<usize, Refusal>) -> WrittenFields
    ensures { written_fields result ≡ written_numbers answer }
{
    match answer {
        Err(reason) => WrittenFields {
            refusal: u32::from(reason),
            length: 0,
        },
        Ok(count) => WrittenFields {
            refusal: 0,
            length: count,
        },
    }
}
