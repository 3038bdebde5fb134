// What each frame is used for. These take bare words:
// a Room asks that they are consistent, and between two writes they need not be.
ghost use Rattle.std.specs.Prelude.{◌≡◌, ℕ, ◌+◌, ◌*◌, ◌<◌, length};
ghost use Rattle.ledger.specs.Words.{UseFits, use_from};
ghost use Rattle.ledger.specs.Room.{use_of, tag_of};
ghost use Rattle.ledger.specs.View.{view_of, with_use};

use crate::Use;
use crate::layout::frame_word;
use crate::record::{Record, read};

pub fn use_at(words: &[u64], f: u32) -> Use
    requires { 65537 + 2 * f < length words.now }
    ensures { result ≡ use_of words.now f }
{
    let (low, high) = words_at(words, f);
    read(low, high)
}

// The two words of a frame's record.
fn words_at(words: &[u64], f: u32) -> (u64, u64)
    requires { 65537 + 2 * f < length words.now }
    ensures { use_from result.0 result.1 ≡ use_of words.now f }
{
    let at = frame_word(f);
    (words[at], words[at + 1])
}

pub fn set_use(words: &mut [u64], f: u32, used: Use)
    requires long { 65537 + 2 * f < length words.old }
    requires fits { UseFits used }
    ensures view { (n : ℕ) → f < n → view_of n words.new ≡ with_use f used (view_of n words.old) }
    ensures tags { tag_of words.new ≡ tag_of words.old }
{
    let at = frame_word(f);
    let record = Record::pack(used);
    words[at] = record.low;
    words[at + 1] = record.high;
}
