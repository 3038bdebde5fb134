// The room as a value: words that are lent, and for how many frames they are kept. What it says is always consistent.
// Where a method writes twice, it binds `&mut *self.words` first: the ghost field is asked for again only at its end.
ghost use Rattle.std.specs.Prelude.{◌≡◌, ◌<◌};
ghost use Rattle.ledger.specs.Consistent.{Consistent};
ghost use Rattle.ledger.specs.Facts.{consistent_prop};
ghost use Rattle.ledger.specs.Room.{use_of, place_of, device_of, low_of};
ghost use Rattle.ledger.specs.Words.{noted};

use crate::devices::device_at;
use crate::frames::use_at;
use crate::places::place_at;
use crate::slots::low_at;
use crate::{Address, Device, Place, Slot, Use};

#[derive(Drop)]
pub struct Room<'a> {
    pub(crate) words: &'a mut [u64],
    pub(crate) frames: u32,
    pub ghost consistent: { Consistent frames words.now } by { consistent_prop frames words.now },
}

impl<'a> Room<'a> {
    // A room that was set up before, and kept since.
    pub fn open(words: &'a mut [u64], frames: u32) -> Room<'a>
        requires { Consistent frames words.old }
        ensures frames { result.frames ≡ frames }
        ensures words { result.words.now ≡ words.old }
        ensures lender { result.words.ghost_name ≡ words.entry.ghost_name }
    {
        Room { words, frames }
    }

    pub fn frames(&self) -> u32
        ensures { result ≡ self.now.frames }
    {
        self.frames
    }

    pub fn words(&self) -> &[u64]
        ensures { result.now ≡ self.now.words.now }
    {
        &self.words[..]
    }

    pub(crate) fn used(&self, f: u32) -> Use
        requires { f < self.now.frames }
        ensures { result ≡ use_of self.now.words.now f }
    {
        use_at(self.words, f)
    }

    pub(crate) fn place(&self, at: Address) -> Place
        ensures { result ≡ place_of self.now.words.now at.who at.v }
    {
        place_at(self.words, at)
    }

    pub(crate) fn device(&self, d: u32) -> Device
        requires { d < 32 }
        ensures { result ≡ device_of self.now.words.now d }
    {
        device_at(self.words, d)
    }

    pub(crate) fn lower(&self, at: Slot) -> Option<u32>
        ensures { result ≡ noted (low_of self.now.words.now at.device at.index) }
    {
        low_at(self.words, at)
    }
}
