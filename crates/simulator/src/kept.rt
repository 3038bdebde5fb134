// What the unit keeps of one kind, or has under way: nothing stands there twice.
ghost use Rattle.std.specs.Prelude.{◌≡◌, ℕ, ◌-◌, ◌≤◌, false, length, MatchOption, MatchResult, find, ◌==◌, ◌&&◌};
ghost use Rattle.house.specs.Machine.{drop_one};
ghost use mathlib.Core.List.{Memᴰ};
ghost use Rattle.simulator.specs.Kept.{among, learnt};
ghost use Rattle.simulator.specs.Lists.{newest};

use crate::cached::{Cached, PageEntry};
use crate::dice::Dice;
use crate::front::{Front, NoRoom};

impl<'a, T: Cached> Front<'a, T> {
    // Keeps one more, unless it has it.
    pub fn learn(&mut self, x: T) -> Result<(), NoRoom>
        ensures list { newest self.new ≡ learnt T.eq x self.old.count (length self.old.all.now) (newest self.old) }
        ensures has { MatchResult result (λ _. Memᴰ x (newest self.new)) (λ _. (among T.eq x (newest self.old) ≡ false) × (length self.old.all.now ≤ self.old.count)) }
    {
        if self.items().contains(&x) {
            return Ok(());
        }
        if self.room() == 0 {
            return Err(NoRoom);
        }
        self.push(x);
        Ok(())
    }

    // One of them, if there is any.
    pub fn pick(&self, dice: &mut Dice) -> Option<T>
        ensures { MatchOption result (self.now.count ≡ 0) (λ x. Memᴰ x (newest self.now)) }
    {
        let n = self.len();
        if n == 0 {
            return None;
        }
        let i = dice.below(n as u64);
        Some(self.items()[i as usize])
    }

    // Forgets one of them, if there is any.
    pub fn lose_one(&mut self, dice: &mut Dice)
        ensures list { (k : ℕ) × (newest self.new ≡ drop_one k (newest self.old)) }
        ensures count { self.new.count ≡ self.old.count - 1 }
    {
        let n = self.len();
        if n > 0 {
            let i = dice.below(n as u64);
            self.remove(i as usize);
        }
    }
}

impl<'a> Front<'a, PageEntry> {
    // The newest that is of device `d` and its page `p`.
    pub fn find(&self, d: u32, p: u32) -> Option<PageEntry>
        ensures { result ≡ find (λ e. e.device == d && e.page == p) (newest self.now) }
    {
        self.items()
            .iter()
            .rev()
            .copied()
            .find(|e| e.device == d && e.page == p)
    }
}
