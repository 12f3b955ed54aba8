// The reorder buffer's layout.
ghost use Rattle.std.specs.Prelude.{◌≡◌, Err};
ghost use Rattle.buffer_layout.specs.Layout.{fresh};

use buffer_slots::bits::SLOTS;
use rtp::settings::Settings;
use rtp::sizes::MAX_FRAME;

// The bytes of a slot: of the longest frame.
pub const SLOT_SIZE: usize = MAX_FRAME;
// The bytes of the store.
pub const STORE_SIZE: usize = SLOTS * SLOT_SIZE;

// Entries in time order, one column for each part of an entry, unused ones zero; a tag is 65536 * mark + 256 * class + channel, as in a row.
// Then which slots are occupied, the last pair drawn, 1 if there is one, and the settings. Laid out as C's hsp_buffer.
#[repr(C)]
#[derive(Clone, Copy)]
pub struct Buffer {
    pub times: [u32; SLOTS],
    pub tags: [u32; SLOTS],
    pub lengths: [u32; SLOTS],
    pub slots: [u32; SLOTS],
    pub occupied: [u64; 3],
    pub last_time: u32,
    pub last_channel: u32,
    pub drawn: u32,
    pub settings: Settings,
}

// What a buffer holds beside its entries and their slots.
#[derive(Clone, Copy)]
pub struct Fixed {
    pub last_time: u32,
    pub last_channel: u32,
    pub drawn: u32,
    pub settings: Settings,
}

// What a call on a buffer answers, and the buffer after it.
#[derive(Clone, Copy)]
pub struct Answered<A> {
    pub answer: A,
    pub buffer: Buffer,
}

impl<T, E> Answered<Result<T, E>> {
    // A call that is refused, and the buffer as it stood.
    pub fn refused(reason: E, buffer: Buffer) -> Answered<Result<T, E>>
        ensures { result ≡ record { answer = Err reason; buffer = buffer } }
    {
        Answered {
            answer: Err(reason),
            buffer,
        }
    }
}

pub fn fresh_buffer(settings: Settings) -> Buffer
    ensures { result ≡ fresh settings }
{
    Buffer {
        times: [0; SLOTS],
        tags: [0; SLOTS],
        lengths: [0; SLOTS],
        slots: [0; SLOTS],
        occupied: [0; 3],
        last_time: 0,
        last_channel: 0,
        drawn: 0,
        settings,
    }
}
