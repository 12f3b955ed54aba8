// Big-endian numbers and bytes in a slice of bytes: the one place where they are read and written.
ghost use Rattle.std.specs.Prelude.{◌≡◌, ◌<◌};
ghost use Rattle.rtp.specs.Numbers.{read_u16, read_u32, two, four};
ghost use Rattle.rtp.specs.Areas.{fitted};

pub fn wide(x: u8) -> usize
    ensures { (result ≡ x) × (result < 256) }
{
    usize::from(x)
}

// The 16-bit number at `at`; 0 where it does not lie inside the slice.
pub fn read_u16(s: &[u8], at: usize) -> u16
    ensures { result ≡ read_u16 s.now at }
{
    if s.len() < at {
        return 0;
    }
    match &s[at..] {
        [a, b, ..] => u16::from_be_bytes([*a, *b]),
        _ => 0,
    }
}

// The 32-bit number at `at`; 0 where it does not lie inside the slice.
pub fn read_u32(s: &[u8], at: usize) -> u32
    ensures { result ≡ read_u32 s.now at }
{
    if s.len() < at {
        return 0;
    }
    match &s[at..] {
        [a, b, c, d, ..] => u32::from_be_bytes([*a, *b, *c, *d]),
        _ => 0,
    }
}

// A number in two bytes over the front of the area; an area too short stays as it stood.
pub fn put_u16(out: &mut [u8], n: u16)
    ensures { out.new ≡ fitted (two n) out.old }
{
    put_bytes(out, &u16::to_be_bytes(n));
}

// A number in four bytes, likewise.
pub fn put_u32(out: &mut [u8], n: u32)
    ensures { out.new ≡ fitted (four n) out.old }
{
    put_bytes(out, &u32::to_be_bytes(n));
}

// Bytes over the front of the area, likewise.
pub fn put_bytes(out: &mut [u8], src: &[u8])
    ensures { out.new ≡ fitted src.now out.old }
{
    if src.len() <= out.len() {
        out[..src.len()].copy_from_slice(src);
    }
}
