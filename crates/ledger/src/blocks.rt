// Searches of 64 words with no branch in between: they compile to a scan of several words at once.
ghost use Rattle.std.specs.Prelude.{◌≡◌, ℕ, ◌+◌, ◌%◌, ◌<◌, ◌≤◌, false, length, Decides, ◌≢◌, slice_index};
ghost use Rattle.ledger.specs.declared.Place.TheVariants.{Nothing, Registers};
ghost use Rattle.ledger.specs.Room.{place_of};
ghost use Rattle.ledger.specs.Words.{tag_device};

use crate::Room;
use crate::layout::place_word;
use crate::places::TAG;

// The lower 17 bits of the 64 words from `first` on, one over the other: none of them is more.
pub fn low_bits(words: &[u64], first: usize) -> u64
    requires { first + 64 ≤ length words.now }
    ensures { (k : ℕ) → k < 64 → slice_index words.now (first + k) % 131072 ≤ result }
{
    let mut seen = 0;
    for k in 0..64 {
        seen |= words[first + k] % 131072;
    }
    seen
}

// The 64 words from `first` on, one over the other: none of them is more.
pub fn bits(words: &[u64], first: usize) -> u64
    requires { first + 64 ≤ length words.now }
    ensures { (k : ℕ) → k < 64 → slice_index words.now (first + k) ≤ result }
{
    let mut seen = 0;
    for k in 0..64 {
        seen |= words[first + k];
    }
    seen
}

// Whether one of the 64 words from `first` on has a tag of device d. Most often `bits` tells, which is less work.
pub fn any_tag_of(words: &[u64], first: usize, d: u32) -> bool
    requires { first + 64 ≤ length words.now }
    ensures { Decides result ((k : ℕ) × (k < 64) × (tag_device (slice_index words.now (first + k)) ≡ d + 1)) }
{
    if bits(words, first) / TAG <= 262144 * d as u64 {
        return false;
    }
    let mut any = false;
    for k in 0..64 {
        any |= (words[first + k] / TAG + 262143) / 262144 == d as u64 + 1;
    }
    any
}

impl Room<'_> {
    // Whether one of the 64 places of a program from `first` on may show a page or registers. Where that is said though
    // none does, it costs a walk over them, and nothing else.
    pub fn any_shown(&self, who: u32, first: u32) -> bool
        requires program { who < 32 }
        requires places { first + 64 ≤ 1024 }
        ensures { result ≡ false → (k : ℕ) → k < 64 → place_of self.now.words.now who (first + k) ≡ Nothing }
    {
        low_bits(self.words(), place_word(who, first)) > 0
    }

    // Whether one of them may show registers.
    pub fn any_registers(&self, who: u32, first: u32) -> bool
        requires program { who < 32 }
        requires places { first + 64 ≤ 1024 }
        ensures { result ≡ false → (d k : ℕ) → k < 64 → place_of self.now.words.now who (first + k) ≢ Registers d }
    {
        low_bits(self.words(), place_word(who, first)) >= 65536
    }
}
