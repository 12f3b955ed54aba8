// Bytes laid into areas.
ghost use Rattle.std.specs.Prelude.{◌≡◌};
ghost use Rattle.buffer_columns.specs.Bounds.{laid};

use rtp::bytes;

// Bytes laid into an area at a place; where they do not fit, the area stays as it stood.
pub fn copy_into(area: &mut [u8], at: usize, src: &[u8])
    ensures { area.new ≡ laid area.old at src.now }
{
    if area.len() < at {
        return;
    }
    bytes::put_bytes(&mut area[at..], src);
}
