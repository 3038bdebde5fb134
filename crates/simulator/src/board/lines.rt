// Lines about devices and the unit: accesses by the tables, keeping a page, writing by what was kept.
// Their numbers are as a line of a script has them: tested here.
ghost use Rattle.std.specs.Prelude.{◌≡◌, ◌<◌, IfOk, length, MatchResult};
ghost use Rattle.script.specs.declared.forms.Line.TheVariants.{Read, Write, Keep, Kept as KeptWrite};
ghost use Rattle.simulator.specs.declared.refused.Refused.TheVariants.{OutOfRange};
ghost use Rattle.simulator.specs.Parts.{seen_of, Ran, Goes};
ghost use Rattle.simulator.specs.Heard.{Heard, Beyond, said_of};
ghost use Rattle.simulator.specs.View.{parts_of};
ghost use Rattle.simulator.specs.Effects.{KeepsPage};
ghost use Rattle.simulator.specs.Walks.{IsWay, Reached};
ghost use mathlib.Core.List.{Memᴰ};
ghost use Rattle.script.specs.declared.outcomes.Outcome.TheVariants.{Kept as KeptSaid, No};

use super::Board;
use super::walks::Way;
use crate::front::NoRoom;
use crate::ranges::{PAGES, WORDS, below};
use crate::refused::Refused;
use script::Outcome;

impl<'a> Board<'a> {
    // Is there such a device, and such a page of it?
    fn has_page(&self, d: u32, p: u32) -> Result<(), Refused>
        ensures { MatchResult result (λ _. (d < length (parts_of self.now).devices) × (p < 262144)) (λ e. (e ≡ OutOfRange) × (d < length (parts_of self.now).devices → p < 262144 → ⊥)) }
    {
        below(d, self.devices())?;
        below(p, PAGES)
    }

    // The way of an access by the tables as they stand now, and none where it misses. Nothing is kept.
    fn reach(&mut self, d: u32, p: u32, word: u32, writes: bool) -> Result<Option<Way>, Refused>
        ensures { Reached (parts_of self.old) d p word writes result (parts_of self.new) }
    {
        self.has_page(d, p)?;
        below(word, WORDS)?;
        if self.miss_at(d, p, writes)? {
            return Ok(None);
        }
        let Some(way) = self.way(d, p) else {
            return Err(Refused::NoFrame);
        };
        Ok(Some(way))
    }

    // A device reads a word.
    pub fn read(&mut self, d: u32, p: u32, word: u32) -> Result<Outcome, Refused>
        ensures ran { Ran (parts_of self.old) (parts_of self.new) }
        ensures heard { Heard (seen_of (parts_of self.old)) (Read d p word) (said_of result) (seen_of (parts_of self.new)) }
        ensures beyond { said_of result ≡ No 1 → Beyond (length (parts_of self.old).devices) (Read d p word) }
    {
        let Some(way) = self.reach(d, p, word, false)? else {
            return Ok(Outcome::Miss);
        };
        let x = self.take_at(way.page, word)?;
        Ok(Outcome::Took(x))
    }

    // It writes one.
    pub fn write(&mut self, d: u32, p: u32, word: u32, x: u64) -> Result<Outcome, Refused>
        ensures ran { Ran (parts_of self.old) (parts_of self.new) }
        ensures heard { Heard (seen_of (parts_of self.old)) (Write d p word x) (said_of result) (seen_of (parts_of self.new)) }
        ensures beyond { said_of result ≡ No 1 → Beyond (length (parts_of self.old).devices) (Write d p word x) }
    {
        let Some(way) = self.reach(d, p, word, true)? else {
            return Ok(Outcome::Miss);
        };
        self.put_at(way.page, word, x)?;
        Ok(Outcome::Put)
    }

    // The tables on the way to a page, and its entry, are kept, as far as there is room.
    fn keep_way(&mut self, way: Way) -> Result<(), NoRoom>
        requires { IsWay (parts_of self.old) way }
        ensures goes { Goes (parts_of self.old) (parts_of self.new) }
        ensures seen { seen_of (parts_of self.new) ≡ seen_of (parts_of self.old) }
        ensures kept { IfOk result (λ _. Memᴰ way.page (parts_of self.new).leaves) }
    {
        self.ups.learn(way.upper)?;
        self.mids.learn(way.lower)?;
        self.leaves.learn(way.page)
    }

    // The unit reads a page and the tables on the way, and keeps them, where there is room.
    pub fn keep(&mut self, d: u32, p: u32) -> Result<Outcome, Refused>
        ensures ran { Ran (parts_of self.old) (parts_of self.new) }
        ensures heard { Heard (seen_of (parts_of self.old)) (Keep d p) (said_of result) (seen_of (parts_of self.new)) }
        ensures beyond { said_of result ≡ No 1 → Beyond (length (parts_of self.old).devices) (Keep d p) }
        ensures kept { said_of result ≡ KeptSaid → KeepsPage d p (parts_of self.new) }
    {
        self.has_page(d, p)?;
        let Some(way) = self.way(d, p) else {
            return Ok(Outcome::Nothing);
        };
        match self.keep_way(way) {
            Ok(()) => Ok(Outcome::Kept),
            Err(NoRoom) => Ok(Outcome::Nothing),
        }
    }

    // A write by a page that the unit kept, if it has and may.
    pub fn write_kept(&mut self, d: u32, p: u32, word: u32, x: u64) -> Result<Outcome, Refused>
        ensures ran { Ran (parts_of self.old) (parts_of self.new) }
        ensures heard { Heard (seen_of (parts_of self.old)) (KeptWrite d p word x) (said_of result) (seen_of (parts_of self.new)) }
        ensures beyond { said_of result ≡ No 1 → Beyond (length (parts_of self.old).devices) (KeptWrite d p word x) }
    {
        self.has_page(d, p)?;
        below(word, WORDS)?;
        let Some(kept) = self.leaves.find(d, p) else {
            return Ok(Outcome::Miss);
        };
        match self.put_at(kept, word, x) {
            Ok(()) => Ok(Outcome::Put),
            Err(_) => Ok(Outcome::Miss),
        }
    }
}
