// Setting up an empty room, whatever its words held before.
ghost use Rattle.std.specs.Prelude.{◌≡◌, ℕ, ◌+◌, ◌*◌, ◌<◌, ◌≤◌, ◌⊎◌, length, if◌then◌else◌, nat_eq, slice_index};
ghost use Rattle.ledger.specs.declared.Use.TheVariants.{House, Idle};
ghost use Rattle.ledger.specs.Room.{use_of};
ghost use Rattle.ledger.specs.View.{view_of};
ghost use Rattle.ledger.specs.Changes.{empty};

use crate::Room;
use crate::layout::{LEFT_OVER, frame_word};

impl<'a> Room<'a> {
    // Frame 0 is the house's and every other is idle; nothing is shown, every device is shut, and there is no table.
    // Words past the last frame's record stay as they are.
    pub fn set_up(words: &'a mut [u64], frames: u32) -> Room<'a>
        requires long { 65536 + 2 * frames ≤ length words.old }
        requires some { 0 < frames }
        requires few { frames ≤ 65536 }
        ensures frames { result.frames ≡ frames }
        ensures lender { result.words.ghost_name ≡ words.entry.ghost_name }
        ensures view { view_of frames result.words.now ≡ empty }
        ensures length { length result.words.now ≡ length words.old }
        ensures beyond { (i : ℕ) → 65536 + 2 * frames ≤ i → slice_index result.words.now i ≡ slice_index words.old i }
    {
        clear_tables(words);
        clear_frames(words, frames);
        Room { words, frames }
    }
}

// By index. `fill` was tried: its proof names the part that is filled, so that a part cut short was found there and not by the
// contract; with lemmas that do not name it, it did not close.
fn clear_tables(words: &mut [u64])
    requires { 65536 ≤ length words.old }
    ensures cleared { (i : ℕ) → i < 49216 → slice_index words.new i ≡ 0 }
    ensures others { (i : ℕ) → 49216 ≤ i → slice_index words.new i ≡ slice_index words.old i }
{
    for i in 0..LEFT_OVER {
        words[i] = 0;
    }
}

// By index, since layout says where a record is; a walk over pairs of words would say it again. The two numbers are the words of
// House and of Idle: `set_use` says nothing of the words past the record.
fn clear_frames(words: &mut [u64], frames: u32)
    requires { 65536 + 2 * frames ≤ length words.old }
    ensures idle { (f : ℕ) → f < frames → use_of words.new f ≡ (if nat_eq f 0 then House else Idle) }
    ensures others { (i : ℕ) → (i < 65536) ⊎ (65536 + 2 * frames ≤ i) → slice_index words.new i ≡ slice_index words.old i }
{
    for f in 0..frames {
        let at = frame_word(f);
        let low = if f == 0 { 0 } else { 2 };
        words[at] = low;
        words[at + 1] = 0;
    }
}
