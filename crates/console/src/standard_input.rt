// All of standard input, read into an area.
ghost use Rattle.std.specs.Prelude.{length};
ghost use Rattle.console.specs.Answers.{Within};

use std::io::{Error, Read};

// Why not all is read: there is more than the area has room for; or a read failed, and why.
#[derive(Clone, Copy)]
pub enum NotRead {
    TooLong,
    Failed(Error),
}

impl From<Error> for NotRead {
    fn from(why: Error) -> NotRead {
        NotRead::Failed(why)
    }
}

// All of standard input, at the front of the area. What stands in the input is the operating system's answer, and the rules leave it open;
// but it is never more than the area has.
pub fn read_all<'a>(input: &mut impl Read, area: &'a mut [u8]) -> Result<&'a [u8], NotRead>
    ensures { Within result (length area.old) }
{
    let mut n = 0;
    while n < area.len() {
        let more = input.read(&mut area[n..])?;
        if more == 0 {
            return Ok(&area[..n]);
        }
        n += more;
    }
    // The area is full: the input has to end here.
    let mut next = [0u8; 1];
    if input.read(&mut next)? == 0 {
        return Ok(area);
    }
    Err(NotRead::TooLong)
}
