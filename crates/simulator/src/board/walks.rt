// The way through the tables in memory.
// Plain numbers, as the trait `Machine` has them.
ghost use Rattle.std.specs.Prelude.{◌≡◌, ◌*◌, ◌/◌, ◌<◌, ◌≤◌, ◌⊎◌, IfSome, IfNone, MatchOption};
ghost use Rattle.house.specs.Machine.{walked};
ghost use Rattle.simulator.specs.Parts.{hw_of};
ghost use Rattle.simulator.specs.View.{parts_of};
ghost use Rattle.simulator.specs.Walks.{Path};

use super::Board;
use crate::cached::{LowerTable, PageEntry, UpperTable};

// A page's entry, and the tables on the way to it, as the IOMMU caches them.
#[derive(Clone, Copy, PartialEq, Eq, Debug)]
pub struct Way {
    pub upper: UpperTable,
    pub lower: LowerTable,
    pub page: PageEntry,
}

impl<'a> Board<'a> {
    // The way to a page's entry, if it has one. Its tables are in memory, since a word of no frame is 0; its frame need not be.
    fn path(&self, d: u32, p: u32) -> Option<Way>
        requires d { d < 512 }
        requires p { p < 262144 }
        ensures walked { MatchOption result (0 ≡ walked (hw_of (parts_of self.now)) d p) (λ w. w.page.entry ≡ walked (hw_of (parts_of self.now)) d p) }
        ensures path { IfSome result (λ w. Path (parts_of self.now) d p w.upper.table w.lower.table w.page.entry) }
        ensures upper { IfSome result (λ w. w.upper.device ≡ d) }
        ensures lower { IfSome result (λ w. (w.lower.device ≡ d) × (w.lower.slot ≡ p / 512)) }
        ensures page { IfSome result (λ w. (w.page.device ≡ d) × (w.page.page ≡ p)) }
        ensures within { IfSome result (λ w. (w.upper.table < 65536) × (w.lower.table < 65536)) }
    {
        if !self.live {
            return None;
        }
        let top = self.memory.word(0, d);
        if top == 0 {
            return None;
        }
        let low = self.memory.word(top - 1, p / 512);
        if low == 0 {
            return None;
        }
        let entry = self.memory.word(low - 1, p % 512);
        if entry == 0 {
            return None;
        }
        let upper = UpperTable {
            device: d,
            table: top - 1,
        };
        let lower = LowerTable {
            device: d,
            slot: p / 512,
            table: low - 1,
        };
        let page = PageEntry {
            device: d,
            page: p,
            entry,
        };
        Some(Way { upper, lower, page })
    }

    // What the tables in memory say of a page, 0 if nothing, as a table holds it.
    pub fn walk(&self, d: u32, p: u32) -> u64
        requires d { d < 512 }
        requires p { p < 262144 }
        ensures { result ≡ walked (hw_of (parts_of self.now)) d p }
    {
        self.path(d, p).map_or(0, |way| way.page.entry)
    }

    // The way to a page, if its tables and its frame are in memory.
    pub fn way(&self, d: u32, p: u32) -> Option<Way>
        requires d { d < 512 }
        requires p { p < 262144 }
        ensures none { IfNone result ((walked (hw_of (parts_of self.now)) d p ≡ 0) ⊎ (2 * (parts_of self.now).frames < walked (hw_of (parts_of self.now)) d p)) }
        ensures path { IfSome result (λ w. Path (parts_of self.now) d p w.upper.table w.lower.table w.page.entry) }
        ensures upper { IfSome result (λ w. w.upper.device ≡ d) }
        ensures lower { IfSome result (λ w. (w.lower.device ≡ d) × (w.lower.slot ≡ p / 512)) }
        ensures page { IfSome result (λ w. (w.page.device ≡ d) × (w.page.page ≡ p)) }
        ensures within { IfSome result (λ w. (w.upper.table < 65536) × (w.lower.table < 65536) × (w.page.entry ≤ 2 * (parts_of self.now).frames)) }
    {
        let most = 2 * self.memory.frames() as u64;
        self.path(d, p).filter(|way| way.page.entry <= most)
    }
}
