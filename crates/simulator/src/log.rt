// The log: what happened, noted in rows that are lent.
ghost use Rattle.std.specs.Prelude.{◌≡◌, ◌+◌, ◌<◌, [], ◌∷◌, length, slice_get};
ghost use Rattle.simulator.specs.Rows.{events_of};

use crate::events::Event;
use crate::front::Front;
use crate::row::Row;

#[derive(Drop)]
pub struct Log<'a> {
    rows: Front<'a, Row>,
}

impl<'a> Log<'a> {
    // Nothing is noted yet.
    pub fn new(rows: &'a mut [Row]) -> Self
        ensures events { events_of result ≡ [] }
        ensures count { result.rows.count ≡ 0 }
        ensures len { length result.rows.all.now ≡ length rows.old }
    {
        Log {
            rows: Front::new(rows),
        }
    }

    pub fn len(&self) -> usize
        ensures { result ≡ self.now.rows.count }
    {
        self.rows.len()
    }

    // For how many more events there is room.
    pub fn room(&self) -> usize
        ensures { result + self.now.rows.count ≡ length self.now.rows.all.now }
    {
        self.rows.room()
    }

    // The latest event, if there is one.
    pub fn latest(&self) -> Option<Event>
        ensures { result ≡ slice_get (events_of self.now) 0 }
    {
        self.rows.latest().map(Event::from)
    }

    // Notes one more.
    #[inline(always)]
    pub fn push(&mut self, event: Event)
        requires { self.old.rows.count < length self.old.rows.all.now }
        ensures list { events_of self.new ≡ event ∷ events_of self.old }
        ensures count { self.new.rows.count ≡ self.old.rows.count + 1 }
        ensures len { length self.new.rows.all.now ≡ length self.old.rows.all.now }
    {
        self.rows.push(Row::from(event));
    }
}
