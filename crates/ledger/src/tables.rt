// The page tables of devices: an open or closing device has one upper table, and lower ones at its slots.
// What a frame is used for and what state a device is in are clauses: they hold of a room until its next write, so no type has them.
ghost use Rattle.std.specs.Prelude.{◌≡◌, ◌<◌, false};
ghost use Rattle.ledger.specs.declared.Use.TheVariants.{Idle, TableOf};
ghost use Rattle.ledger.specs.declared.Device.TheVariants.{Shut};
ghost use Rattle.ledger.specs.Room.{use_of, device_of, low_of};
ghost use Rattle.ledger.specs.Uses.{is_shut};
ghost use Rattle.ledger.specs.Changes.{opened_by, lower_at};
ghost use Rattle.ledger.specs.Rooms.{says, Becomes};

use crate::devices::{set_device, set_top};
use crate::frames::set_use;
use crate::slots::set_low;
use crate::{Device, Room, Slot, Use, Which};

impl Room<'_> {
    // `who` opens d, which was shut; the idle frame f becomes its upper table.
    pub fn open_device(&mut self, who: u32, d: u32, f: u32)
        requires program { who < 32 }
        requires device { d < 32 }
        requires shut { device_of self.old.words.now d ≡ Shut }
        requires within { f < self.old.frames }
        requires frame { use_of self.old.words.now f ≡ Idle }
        ensures { Becomes self.old (opened_by who d f (says self.old)) self.new }
    {
        let words = &mut *self.words;
        set_use(words, f, table_of(d, Which::Upper));
        set_top(words, d, f);
        set_device(words, d, Device::Opened(who));
    }

    // The idle frame f becomes the lower table of a device, which is not shut, at a slot that had none.
    pub fn add_lower(&mut self, at: Slot, f: u32)
        requires live { is_shut (device_of self.old.words.now at.device) ≡ false }
        requires missing { low_of self.old.words.now at.device at.index ≡ 0 }
        requires within { f < self.old.frames }
        requires frame { use_of self.old.words.now f ≡ Idle }
        ensures { Becomes self.old (lower_at at.device at.index f (says self.old)) self.new }
    {
        let words = &mut *self.words;
        set_use(words, f, table_of(at.device, Which::Lower(at.index)));
        set_low(words, at, Some(f));
    }
}

fn table_of(device: u32, which: Which) -> Use
    ensures { result ≡ TableOf device which }
{
    Use::TableOf { device, which }
}
