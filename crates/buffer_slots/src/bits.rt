// Occupied slots as three 64-bit words.
ghost use Rattle.std.specs.Prelude.{◌≡◌, ◌+◌, ◌≤◌, ◌<◌, ◌^◌};
ghost use Rattle.std.specs.Int.Count.{ones};
ghost use Rattle.buffer_copies.specs.Sizes.{slots};
ghost use Rattle.buffer_slots.specs.Bits.{bit_at, LowestZero, held_in, lowest_free, is_free, claimed, released, same_words};

// Entries and slots of a buffer.
pub const SLOTS: usize = 192;

fn ones_of(word: u64) -> u32
    ensures { (result ≡ ones word) × (result ≤ 64) }
{
    u64::count_ones(word)
}

// The number held.
pub fn held_in(words: [u64; 3]) -> usize
    ensures { (result ≡ held_in words) × (result ≤ slots) }
{
    (ones_of(words[0]) + ones_of(words[1]) + ones_of(words[2])) as usize
}

// The lowest place of a word whose bit is 0, 64 where there is none.
fn lowest_zero(word: u64) -> u32
    ensures { LowestZero 64 word result }
{
    u64::trailing_zeros(!word)
}

// The lowest slot that is not marked, 192 where all are.
pub fn lowest_free(words: [u64; 3]) -> usize
    ensures { result ≡ lowest_free words }
{
    let first = lowest_zero(words[0]) as usize;
    if first < 64 {
        return first;
    }
    let second = lowest_zero(words[1]) as usize;
    if second < 64 {
        return 64 + second;
    }
    128 + lowest_zero(words[2]) as usize
}

// Two to the power `bit`.
fn power(bit: usize) -> u64
    requires { bit < 64 }
    ensures { result ≡ 2 ^ bit }
{
    1u64 << bit
}

// A word with a bit set, which was not.
fn with_bit(word: u64, bit: usize) -> u64
    requires { (bit < 64) × (bit_at bit word ≡ 0) }
    ensures { result ≡ word + 2 ^ bit }
{
    word + power(bit)
}

// A slot marked, if it is one of the 192 and is not marked yet: whether it was so.
pub fn claim(words: &mut [u64; 3], slot: usize) -> bool
    ensures value { result ≡ is_free words.old slot }
    ensures words_after { words.new ≡ claimed words.old slot }
{
    if SLOTS <= slot {
        return false;
    }
    let i = slot / 64;
    let word = words[i];
    let shifted = word >> (slot % 64);
    if shifted % 2 == 0 {
        words[i] = with_bit(word, slot % 64);
        return true;
    }
    false
}

// The words with a slot marked, if it is one of the 192 and is not marked yet.
pub fn mark(words: [u64; 3], slot: usize) -> [u64; 3]
    ensures { result ≡ claimed words slot }
{
    let mut next = words;
    claim(&mut next, slot);
    next
}

// The words without the mark of a slot, if it is one of the 192 and its word is no less than the mark.
pub fn unmark(words: [u64; 3], slot: usize) -> [u64; 3]
    ensures { result ≡ released words slot }
{
    if SLOTS <= slot {
        return words;
    }
    let mut next = words;
    let i = slot / 64;
    let bit = power(slot % 64);
    if bit <= next[i] {
        next[i] -= bit;
    }
    next
}

pub fn same_words(v: [u64; 3], w: [u64; 3]) -> bool
    ensures { result ≡ same_words v w }
{
    v == w
}
