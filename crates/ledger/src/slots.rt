// The lower table at each slot of each device: its frame, if there is one. These take bare words:
// a Room asks that they are consistent, and between two writes they need not be.
ghost use Rattle.std.specs.Prelude.{◌≡◌, ℕ, ◌<◌, ◌≤◌, length};
ghost use Rattle.ledger.specs.Words.{noted, note_of, number_from};
ghost use Rattle.ledger.specs.Room.{low_of, tag_of};
ghost use Rattle.ledger.specs.View.{view_of, with_low};

use crate::Slot;
use crate::layout::slot_word;
use crate::record::number;

pub fn low_at(words: &[u64], at: Slot) -> Option<u32>
    requires { 65536 ≤ length words.now }
    ensures { result ≡ noted (low_of words.now at.device at.index) }
{
    read(words[slot_word(at.device, at.index)])
}

pub fn set_low(words: &mut [u64], at: Slot, table: Option<u32>)
    requires long { 65536 ≤ length words.old }
    requires fits { note_of table < 131072 }
    ensures view { (n : ℕ) → view_of n words.new ≡ with_low at.device at.index (note_of table) (view_of n words.old) }
    ensures tags { tag_of words.new ≡ tag_of words.old }
{
    words[slot_word(at.device, at.index)] = word(table);
}

// No `From`: neither type is of this crate.
fn word(table: Option<u32>) -> u64
    ensures { result ≡ note_of table }
{
    table.map_or(0, |f| f as u64 + 1)
}

fn read(word: u64) -> Option<u32>
    ensures { result ≡ noted (number_from word) }
{
    number(word).checked_sub(1)
}
