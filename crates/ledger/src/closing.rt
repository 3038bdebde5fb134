// Closing a device: it is closing while it may still reach what was lent to it, and shut once it was forgotten.
// Whose the device is, and that its registers are hidden, are clauses: they hold of a room until its next write, so no type has them.
ghost use Rattle.std.specs.Prelude.{◌≡◌, ℕ, ◌<◌, true, false, ◌≢◌};
ghost use Rattle.ledger.specs.declared.Place.TheVariants.{Registers};
ghost use Rattle.ledger.specs.declared.Use.TheVariants.{Idle};
ghost use Rattle.ledger.specs.declared.Device.TheVariants.{Shut};
ghost use Rattle.ledger.specs.Room.{place_of, device_of, top_of, low_of};
ghost use Rattle.ledger.specs.View.{with_use, with_top, with_device};
ghost use Rattle.ledger.specs.Uses.{is_shut, is_with, owner_is, loan_in};
ghost use Rattle.ledger.specs.Changes.{closing_for, shut_device, without_lower, without_lowers};
ghost use Rattle.ledger.specs.Rooms.{says, Becomes};

use crate::blocks::low_bits;
use crate::devices::{set_device, set_top, top_at};
use crate::frames::set_use;
use crate::layout::slot_word;
use crate::slots::set_low;
use crate::{Device, Room, Slot, Use};

impl Room<'_> {
    // d, which `who` has and whose registers are shown nowhere, is closing: what was lent to it is leaving.
    pub fn begin_closing(&mut self, who: u32, d: u32)
        requires program { who < 32 }
        requires device { d < 32 }
        requires owner { owner_is who (device_of self.old.words.now d) ≡ true }
        requires hidden { (a b : ℕ) → place_of self.old.words.now a b ≢ Registers d }
        ensures { Becomes self.old (closing_for who d (says self.old)) self.new }
    {
        self.leave_all(who, d);
        set_device(self.words, d, Device::Closing(who));
    }

    // d, which `who` has and whose registers are shown nowhere, is shut: what was lent to it or leaving it is home, and its
    // tables are idle.
    pub fn shut_device(&mut self, who: u32, d: u32)
        requires program { who < 32 }
        requires device { d < 32 }
        requires owner { owner_is who (device_of self.old.words.now d) ≡ true }
        requires hidden { (a b : ℕ) → place_of self.old.words.now a b ≢ Registers d }
        ensures { Becomes self.old (shut_device d (says self.old)) self.new }
    {
        self.home_all(who, d);
        self.drop_lowers(d);
        self.drop_upper(d);
    }

    // The lower tables of d, to which nothing is lent, become idle. Slots without tables are passed over, 64 at a time.
    fn drop_lowers(&mut self, d: u32)
        requires device { d < 32 }
        requires free { (g : ℕ) → is_with d (loan_in ((says self.old).used g)) ≡ false }
        ensures { Becomes self.old (without_lowers d (says self.old)) self.new }
    {
        for block in 0..8 {
            let first = 64 * block;
            if low_bits(self.words(), slot_word(d, first)) > 0 {
                for index in first..first + 64 {
                    self.drop_lower(Slot { device: d, index });
                }
            }
        }
    }

    fn drop_lower(&mut self, at: Slot)
        requires { (g : ℕ) → is_with at.device (loan_in ((says self.old).used g)) ≡ false }
        ensures { Becomes self.old (without_lower at.device at.index (says self.old)) self.new }
    {
        if let Some(table) = self.lower(at) {
            let words = &mut *self.words;
            set_use(words, table, Use::Idle);
            set_low(words, at, None);
        }
    }

    // d, which has no lower table and to which nothing is lent, is shut, and its upper table becomes idle.
    fn drop_upper(&mut self, d: u32)
        requires device { d < 32 }
        requires live { is_shut (device_of self.old.words.now d) ≡ false }
        requires free { (g : ℕ) → is_with d (loan_in ((says self.old).used g)) ≡ false }
        requires lows { (i : ℕ) → low_of self.old.words.now d i ≡ 0 }
        requires hidden { (a b : ℕ) → place_of self.old.words.now a b ≢ Registers d }
        ensures { Becomes self.old (with_device d Shut (with_top d 0 (with_use (top_of self.old.words.now d) Idle (says self.old)))) self.new }
    {
        let words = &mut *self.words;
        let upper = top_at(words, d);
        set_use(words, upper, Use::Idle);
        set_top(words, d, 0);
        set_device(words, d, Device::Shut);
    }
}
