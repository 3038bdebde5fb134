// What can be counted of a machine.
ghost use Rattle.std.specs.Prelude.{◌≡◌, slice_get};
ghost use Rattle.simulator.specs.View.{parts_of};

use super::Board;
use crate::events::Event;

// How many upper tables, lower tables and pages are kept, accesses under way, and events noted.
#[derive(Clone, Copy, PartialEq, Eq, Debug)]
pub struct Census {
    pub uppers: usize,
    pub lowers: usize,
    pub pages: usize,
    pub accesses: usize,
    pub events: usize,
}

impl<'a> Board<'a> {
    pub fn census(&self) -> Census
        ensures uppers { result.uppers ≡ self.now.ups.count }
        ensures lowers { result.lowers ≡ self.now.mids.count }
        ensures pages { result.pages ≡ self.now.leaves.count }
        ensures accesses { result.accesses ≡ self.now.flying.count }
        ensures events { result.events ≡ self.now.log.rows.count }
    {
        Census {
            uppers: self.ups.len(),
            lowers: self.mids.len(),
            pages: self.leaves.len(),
            accesses: self.flying.len(),
            events: self.log.len(),
        }
    }

    // The latest event.
    pub fn latest(&self) -> Option<Event>
        ensures { result ≡ slice_get (parts_of self.now).notes 0 }
    {
        self.log.latest()
    }
}
