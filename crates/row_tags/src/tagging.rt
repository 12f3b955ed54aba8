// A row's second word, its tag: whether the frame was heard first-hand, its class and its channel.
ghost use Rattle.std.specs.Prelude.{◌≡◌, ◌<◌};
ghost use Rattle.row_tags.specs.Tags.{tag_of, tag_mark, tag_class, tag_channel, joined_tag};

// The mark of a frame heard first-hand: in a plain payload or the primary block; and of one in a redundant block.
pub const PRIMARY: u8 = 1;

pub const REDUNDANT: u8 = 0;

pub fn pack_tag(mark: u8, class: u8, channel: u8) -> u32
    ensures { result ≡ tag_of mark class channel }
{
    65536 * u32::from(mark) + (256 * u32::from(class) + u32::from(channel))
}

pub fn tag_mark(tag: u32) -> u32
    ensures { (result ≡ tag_mark tag) × (result < 2) }
{
    tag / 65536 % 2
}

pub fn tag_class(tag: u32) -> u32
    ensures { result ≡ tag_class tag }
{
    tag / 256 - 256 * (tag / 65536 % 2)
}

pub fn tag_channel(tag: u32) -> u32
    ensures { (result ≡ tag_channel tag) × (result < 256) }
{
    tag % 256
}

// The tag, marked if it or the other one is.
pub fn join_mark(tag: u32, other: u32) -> u32
    ensures { result ≡ joined_tag tag other }
{
    if tag_mark(tag) == 0 {
        tag + 65536 * tag_mark(other)
    } else {
        tag
    }
}
