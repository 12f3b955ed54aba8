// Refusals in words.
ghost use Rattle.std.specs.Prelude.{◌≤◌, length};
ghost use Rattle.console_text.specs.Lines.{line_size, Continued};

use console_text::lines::Line;

// The reason of the refusal of this number: what is wrong with a packet, a payload or a call, or from 17 on with a log.
pub fn reason(number: u32) -> &'static str {
    match number {
        1 => "the packet is under 12 or over 2,048 bytes",
        2 => "the version is not 2",
        3 => "the list of contributing sources or the extension runs past the end",
        4 => "the padding count is 0 or more than the bytes after the headers",
        5 => "the payload type is neither the agreed one nor the redundancy type",
        6 => "an entry of a table of contents or a block header runs past the end",
        7 => "a table of contents has a reserved L or frame type",
        8 => "an entry of a table of contents counts no frame-blocks",
        9 => "the packet has more than 384 frames",
        10 => "the bytes after the tables or block headers are too few or too many",
        11 => "the settings are out of range",
        12 => "an area that was lent is too short",
        13 => "the frame list cannot be written",
        14 => "a frame lies outside the bytes that were lent",
        15 => "the buffer or the record is malformed",
        17 => "a field is cut",
        18 => "a tag is in the wrong place or missing",
        19 => "the content is not allowed by the settings",
        20 => "the count of the frames is wrong",
        _ => "no such refusal",
    }
}

// The reason, put after what the line holds. The rules leave the words open.
pub fn put_reason(line: &mut Line, number: u32)
    ensures continued { Continued line.old line.new }
    ensures fits { length line.new ≤ line_size }
{
    line.put(reason(number).as_bytes());
}
