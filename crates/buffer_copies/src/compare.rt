// Which of two copies of a frame is better.
ghost use Rattle.std.specs.Prelude.{◌≡◌};
ghost use Rattle.buffer_copies.specs.Copies.{quality, soundness, better_frame};

use formats::frames;

// The classes that tell the quality and the soundness of a frame.
const SOUND: u32 = frames::SOUND as u32;

const SID: u32 = frames::SID as u32;

const DAMAGED_SOUND: u32 = frames::DAMAGED_SOUND as u32;

// 1 if a frame of this class is good, 0 if it is damaged.
fn quality_of(class: u32) -> u32
    ensures { result ≡ quality class }
{
    if class <= SID {
        return 1;
    }
    0
}

// 1 if a frame of this class is sound, 0 if it is a SID.
fn soundness_of(class: u32) -> u32
    ensures { result ≡ soundness class }
{
    if class == SOUND || class == DAMAGED_SOUND {
        return 1;
    }
    0
}

// Whether a frame of this class and these bytes is better than another.
pub fn is_better(class: u32, a: &[u8], other: u32, b: &[u8]) -> bool
    ensures { result ≡ better_frame class a.now other b.now }
{
    if class != other {
        let good = quality_of(class);
        let other_good = quality_of(other);
        if good != other_good {
            return other_good < good;
        }
        let sound = soundness_of(class);
        let other_sound = soundness_of(other);
        if sound != other_sound {
            return other_sound < sound;
        }
    }
    if a.len() != b.len() {
        return b.len() < a.len();
    }
    a.cmp(&b).is_gt()
}
