// Frames of 512 words in one lent slice.
// Plain numbers, as the trait `Machine` has them.
ghost use Rattle.std.specs.Prelude.{◌≡◌, ℕ, ◌+◌, ◌*◌, ◌/◌, ◌%◌, ◌^◌, ◌<◌, ◌≤◌, length, MatchOption, slice_index, slice_set};
ghost use Rattle.simulator.specs.Store.{mem_of};

use crate::ranges::WORDS;
use std::ops::Range;

#[derive(Drop)]
pub struct Memory<'a> {
    words: &'a mut [u64],
    // how many frames the words make
    frames: u32,
    ghost whole: { length words.now ≡ 512 * frames },
    ghost few: { frames ≤ 65536 },
}

// No word is 0, and each looks like an entry of a table.
fn scribble(words: &mut [u64])
    ensures filled { (k : ℕ) → k < length words.new → 0 < slice_index words.new k }
    ensures fits { (k : ℕ) → k < length words.new → slice_index words.new k < 2 ^ 64 }
{
    for (i, word) in words.iter_mut().enumerate() {
        *word = i as u64 % 128 + 1;
    }
}

impl<'a> Memory<'a> {
    // Frames that hold anything but noughts.
    pub fn new(words: &'a mut [u64]) -> Self
        requires most { length words.old ≤ 33554432 }
        requires whole { length words.old % 512 ≡ 0 }
        ensures frames { result.frames ≡ length words.old / 512 }
        ensures filled { (k : ℕ) → k < 512 * result.frames → 0 < slice_index result.words.now k }
        ensures fits { (k : ℕ) → slice_index result.words.now k < 2 ^ 64 }
    {
        scribble(words);
        let frames = (words.len() / 512) as u32;
        Memory { words, frames }
    }

    pub fn frames(&self) -> u32
        ensures frames { result ≡ self.now.frames }
        ensures few { result ≤ 65536 }
    {
        self.frames
    }

    // A word of a frame, 0 if there is no such frame, as a table holds 0 where there is nothing.
    pub fn word(&self, frame: u64, word: u32) -> u64
        requires { word < 512 }
        ensures { result ≡ mem_of self.now.words.now frame word }
    {
        if frame < self.frames as u64 {
            self.words[512 * frame as usize + word as usize]
        } else {
            0
        }
    }

    // The first of some words of a frame that is not 0.
    fn set_among(&self, frame: u64, mut words: Range<u32>) -> Option<u32>
        requires { words.end ≤ 512 }
        ensures { MatchOption result ((k : ℕ) → words.start ≤ k → k < words.end → mem_of self.now.words.now frame k ≡ 0) (λ k. (words.start ≤ k) × (k < words.end) × (0 < mem_of self.now.words.now frame k) × ((i : ℕ) → words.start ≤ i → i < k → mem_of self.now.words.now frame i ≡ 0)) }
    {
        words.find(|k| self.word(frame, *k) > 0)
    }

    // The first word of a frame that is not 0, from `from` on and then from its start.
    pub fn first_set(&self, frame: u64, from: u32) -> Option<u32>
        requires { from < 512 }
        ensures { MatchOption result ((k : ℕ) → k < 512 → mem_of self.now.words.now frame k ≡ 0) (λ k. (k < 512) × (0 < mem_of self.now.words.now frame k)) }
    {
        if let Some(k) = self.set_among(frame, from..WORDS) {
            return Some(k);
        }
        self.set_among(frame, 0..from)
    }

    pub fn write(&mut self, frame: u32, word: u32, x: u64)
        requires frame { frame < self.old.frames }
        requires word { word < 512 }
        ensures words { self.new.words.now ≡ slice_set self.old.words.now (512 * frame + word) x }
        ensures frames { self.new.frames ≡ self.old.frames }
    {
        self.words[512 * frame as usize + word as usize] = x;
    }
}
