// Frames in lines of output.
ghost use Rattle.std.specs.Prelude.{◌≡◌, ◌∷◌};
ghost use Rattle.console_text.specs.Lines.{gathered, class_word, frame_text};

use console_text::lines::Line;

// A frame's class in a word.
fn put_class(line: &mut Line, class: u32)
    ensures { line.new ≡ gathered line.old (32 ∷ class_word class) }
{
    match class {
        1 => line.put(b" sound"),
        2 => line.put(b" sid"),
        5 => line.put(b" damaged-sound"),
        6 => line.put(b" damaged-sid"),
        _ => line.put(b" unknown"),
    }
}

// A frame after what the line holds: time, channel, class, length, and the bytes in hexadecimal.
pub fn put_frame(line: &mut Line, time: u32, channel: u32, class: u32, bytes: &[u8])
    ensures { line.new ≡ gathered line.old (frame_text time channel class bytes.now) }
{
    line.put_number(b"", time as u64);
    line.put_number(b" ", channel as u64);
    put_class(line, class);
    line.put_number(b" ", bytes.len() as u64);
    line.put(b" ");
    line.put_hex(bytes);
}
