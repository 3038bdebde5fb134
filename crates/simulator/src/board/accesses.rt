// Accesses by devices, and misses: each is noted, and happens only where there is room to note it.
// Plain numbers, as the trait `Machine` has them.
ghost use Rattle.std.specs.Prelude.{◌≡◌, ◌<◌, ◌≤◌, MatchResult};
ghost use Rattle.house.specs.Machine.{frame_in, may_write};
ghost use Rattle.simulator.specs.declared.refused.Refused.TheVariants.{NoFrame};
ghost use Rattle.simulator.specs.Effects.{TookAt, PutAt, MissedAt};
ghost use Rattle.simulator.specs.View.{parts_of};

use super::Board;
use crate::cached::PageEntry;
use crate::events::Event;
use crate::front::NoRoom;
use crate::refused::Refused;

// The frame that an entry names.
pub fn frame_in(entry: u64) -> u64
    ensures { result ≡ frame_in entry }
{
    entry.saturating_sub(1) / 2
}

// May a device write by it?
pub fn may_write(entry: u64) -> bool
    ensures { result ≡ may_write entry }
{
    entry.saturating_sub(1) % 2 == 1
}

impl<'a> Board<'a> {
    // The frame that an entry names, if it is in memory.
    fn frame_of(&self, entry: u64) -> Result<u32, Refused>
        ensures { MatchResult result (λ f. (f ≡ frame_in entry) × (f < (parts_of self.now).frames)) (λ e. (e ≡ NoFrame) × ((parts_of self.now).frames ≤ frame_in entry)) }
    {
        let frame = frame_in(entry);
        if frame < self.memory.frames() as u64 {
            Ok(frame as u32)
        } else {
            Err(Refused::NoFrame)
        }
    }

    // A word is read by a page's entry.
    pub fn take_at(&mut self, by: PageEntry, word: u32) -> Result<u64, Refused>
        requires { word < 512 }
        ensures { TookAt (parts_of self.old) by.device by.page by.entry word result (parts_of self.new) }
    {
        let frame = self.frame_of(by.entry)?;
        let x = self.memory.word(frame as u64, word);
        let took = Event::Took {
            d: by.device,
            p: by.page,
            frame,
            word,
            x,
        };
        self.note_aside(took)?;
        Ok(x)
    }

    // A word is written by one, if it lets it.
    pub fn put_at(&mut self, by: PageEntry, word: u32, x: u64) -> Result<(), Refused>
        requires { word < 512 }
        ensures { PutAt (parts_of self.old) by.device by.page by.entry word x result (parts_of self.new) }
    {
        if !may_write(by.entry) {
            return Err(Refused::ReadOnly);
        }
        let frame = self.frame_of(by.entry)?;
        let put = Event::Put {
            d: by.device,
            p: by.page,
            frame,
            word,
            x,
        };
        self.note_aside(put)?;
        self.memory.write(frame, word, x);
        Ok(())
    }

    // A device misses a page, if the tables say so now; says whether it does.
    pub fn miss_at(&mut self, d: u32, p: u32, writes: bool) -> Result<bool, NoRoom>
        requires d { d < 512 }
        requires p { p < 262144 }
        ensures { MissedAt (parts_of self.old) d p writes result (parts_of self.new) }
    {
        let entry = self.walk(d, p);
        if entry != 0 && (!writes || may_write(entry)) {
            return Ok(false);
        }
        self.note_aside(Event::Missed { d, p, writes })?;
        Ok(true)
    }
}
