// Drains: when the unit forgets a device, and what it says of that.
ghost use Rattle.std.specs.Prelude.{◌≡◌, ℕ, ◌-◌, ◌/◌, ◌%◌, ◌<◌, true, false, ◌∷◌, Some, ◌==◌};
ghost use Rattle.house.specs.Event.{Drained};
ghost use Rattle.house.specs.Machine.{counted, Drains, Forgotten};
ghost use Rattle.simulator.specs.Parts.{hw_of, seen_of, Goes};
ghost use Rattle.simulator.specs.Draws.{drawn};
ghost use Rattle.simulator.specs.View.{parts_of};

use super::Board;
use crate::events::Event;

impl<'a> Board<'a> {
    // Says no as often as it was told to, and with a seed one time in four by itself.
    fn refuses(&mut self) -> bool
        ensures parts { parts_of self.new ≡ parts_of self.old }
        ensures told { 0 < self.old.refusals → result ≡ true }
        ensures unseeded { self.old.refusals ≡ 0 → self.old.dice ≡ None → result ≡ false }
        ensures seeded { (s : ℕ) → self.old.refusals ≡ 0 → self.old.dice ≡ Some (record { state = s }) → result ≡ (drawn s / 8589934592 % 4 == 0) }
        ensures left { self.new.refusals ≡ self.old.refusals - 1 }
    {
        if self.refusals > 0 {
            self.refusals -= 1;
            return true;
        }
        match &mut self.dice {
            Some(dice) => dice.below(4) == 0,
            None => false,
        }
    }

    // Notes what is said to a drain, which is one asking less.
    fn note_drain(&mut self, d: u32, said: bool)
        requires { 0 < (hw_of (parts_of self.old)).left }
        ensures hw { hw_of (parts_of self.new) ≡ counted (hw_of (parts_of self.old)) }
        ensures seen { seen_of (parts_of self.new) ≡ Drained d said ∷ seen_of (parts_of self.old) }
    {
        self.log.push(Event::Drained { d, said });
        self.left -= 1;
    }

    // Forgets all of a device.
    fn forget(&mut self, d: u32)
        ensures goes { Goes (parts_of self.old) (parts_of self.new) }
        ensures forgot { Forgotten d (hw_of (parts_of self.new)) }
    {
        self.ups.forget(d as u64);
        self.mids.forget(d as u64);
        self.leaves.forget(d as u64);
        self.flying.forget(d as u64);
    }

    pub fn drain(&mut self, d: u32) -> bool
        requires left { 0 < (hw_of (parts_of self.old)).left }
        requires d { d < (hw_of (parts_of self.old)).devices }
        ensures { Drains d (hw_of (parts_of self.old)) (seen_of (parts_of self.old)) result (hw_of (parts_of self.new)) (seen_of (parts_of self.new)) }
    {
        self.play();
        if self.refuses() {
            self.note_drain(d, false);
            self.play();
            return false;
        }
        self.forget(d);
        self.note_drain(d, true);
        self.play();
        true
    }
}
