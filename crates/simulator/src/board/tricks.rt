// What the unit and devices do by themselves, chosen by the seed.
ghost use Rattle.std.specs.Prelude.{◌≡◌};
ghost use Rattle.simulator.specs.Parts.{Goes};
ghost use Rattle.simulator.specs.View.{parts_of};

use super::Board;
use crate::cached::{LowerTable, PageEntry, UpperTable};
use crate::dice::Dice;
use crate::ranges::PAGES;

impl<'a> Board<'a> {
    // With a seed up to three tricks, without one none.
    #[inline(always)]
    pub fn play(&mut self)
        ensures goes { Goes (parts_of self.old) (parts_of self.new) }
        ensures quiet { self.old.dice ≡ None → parts_of self.new ≡ parts_of self.old }
    {
        let Some(dice) = &mut self.dice else {
            return;
        };
        let tricks = dice.below(4);
        for _ in 0..tricks {
            self.trick();
        }
    }

    // With a seed one trick, or none where what it needs is not there.
    #[inline(never)]
    pub fn trick(&mut self)
        ensures { Goes (parts_of self.old) (parts_of self.new) }
    {
        if let Some(mut dice) = self.dice {
            self.play_trick(&mut dice);
            self.dice = Some(dice);
        }
    }

    // Which one is drawn. The match stays: a table of functions would have these lines, too, and an index into it besides.
    fn play_trick(&mut self, dice: &mut Dice)
        ensures { Goes (parts_of self.old) (parts_of self.new) }
    {
        match dice.below(11) {
            0 => self.learn_upper(dice),
            1 => self.learn_lower(dice),
            2 => self.learn_page(dice),
            3 => self.ups.lose_one(dice),
            4 => self.mids.lose_one(dice),
            5 => self.leaves.lose_one(dice),
            6 => self.let_through(dice),
            7 => self.flying.lose_one(dice),
            8 => self.read_late(dice),
            9 => self.write_late(dice),
            _ => self.miss(dice),
        }
    }

    // The unit learns an upper table from frame 0.
    fn learn_upper(&mut self, dice: &mut Dice)
        ensures { Goes (parts_of self.old) (parts_of self.new) }
    {
        let n = self.devices();
        if n == 0 || !self.live {
            return;
        }
        let device = dice.below(n as u64) as u32;
        let top = self.memory.word(0, device);
        if top == 0 || top > self.memory.frames() as u64 {
            return;
        }
        let _ = self.ups.learn(UpperTable {
            device,
            table: top - 1,
        });
    }

    // It goes on from an upper table that it kept to a lower one.
    fn learn_lower(&mut self, dice: &mut Dice)
        ensures { Goes (parts_of self.old) (parts_of self.new) }
    {
        let Some(upper) = self.ups.pick(dice) else {
            return;
        };
        let from = dice.below(512) as u32;
        let Some(slot) = self.memory.first_set(upper.table, from) else {
            return;
        };
        let low = self.memory.word(upper.table, slot);
        if low > self.memory.frames() as u64 {
            return;
        }
        let _ = self.mids.learn(LowerTable {
            device: upper.device,
            slot,
            table: low - 1,
        });
    }

    // It goes on from a lower table that it kept to a page.
    fn learn_page(&mut self, dice: &mut Dice)
        ensures { Goes (parts_of self.old) (parts_of self.new) }
    {
        let Some(lower) = self.mids.pick(dice) else {
            return;
        };
        let from = dice.below(512) as u32;
        if lower.slot >= 512 {
            return;
        }
        let Some(k) = self.memory.first_set(lower.table, from) else {
            return;
        };
        let entry = self.memory.word(lower.table, k);
        if entry > 2 * self.memory.frames() as u64 {
            return;
        }
        let _ = self.leaves.learn(PageEntry {
            device: lower.device,
            page: 512 * lower.slot + k,
            entry,
        });
    }

    // An access is let through by a page that it kept.
    fn let_through(&mut self, dice: &mut Dice)
        ensures { Goes (parts_of self.old) (parts_of self.new) }
    {
        if let Some(page) = self.leaves.pick(dice) {
            let _ = self.flying.learn(page);
        }
    }

    // An access under way reads.
    fn read_late(&mut self, dice: &mut Dice)
        ensures { Goes (parts_of self.old) (parts_of self.new) }
    {
        if let Some(by) = self.flying.pick(dice) {
            let word = dice.below(512) as u32;
            let _ = self.take_at(by, word);
        }
    }

    // An access under way writes, if its entry lets it.
    fn write_late(&mut self, dice: &mut Dice)
        ensures { Goes (parts_of self.old) (parts_of self.new) }
    {
        if let Some(by) = self.flying.pick(dice) {
            let word = dice.below(512) as u32;
            let x = dice.word();
            let _ = self.put_at(by, word, x);
        }
    }

    // A device finds nothing at a page.
    fn miss(&mut self, dice: &mut Dice)
        ensures { Goes (parts_of self.old) (parts_of self.new) }
    {
        let n = self.devices();
        if n == 0 {
            return;
        }
        let d = dice.below(n as u64) as u32;
        let p = dice.below(PAGES as u64) as u32;
        let writes = dice.below(2) == 1;
        let _ = self.miss_at(d, p, writes);
    }
}
