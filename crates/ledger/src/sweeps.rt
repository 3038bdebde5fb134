// Sweeps over the places of a program: what becomes of the pages that it has lent to a device.
ghost use Rattle.std.specs.Prelude.{◌≡◌, ◌<◌, true};
ghost use Rattle.ledger.specs.Room.{device_of};
ghost use Rattle.ledger.specs.Uses.{owner_is, home_from, leaving_from, map_loan, on_page, swept_loan};
ghost use Rattle.ledger.specs.Changes.{with_uses};
ghost use Rattle.ledger.specs.Rooms.{says, Becomes};

use crate::blocks::any_tag_of;
use crate::layout::place_word;
use crate::{Address, Loan, Place, Room, Use};

impl Room<'_> {
    // What is lent to d is leaving it. Two names for one sweep, since they promise two things.
    pub fn leave_all(&mut self, who: u32, d: u32)
        requires program { who < 32 }
        requires owner { owner_is who (device_of self.old.words.now d) ≡ true }
        ensures { Becomes self.old (with_uses (map_loan (leaving_from d)) (says self.old)) self.new }
    {
        self.sweep_loans(who, d, false);
    }

    // What is lent to d or leaving it is home.
    pub fn home_all(&mut self, who: u32, d: u32)
        requires program { who < 32 }
        requires owner { owner_is who (device_of self.old.words.now d) ≡ true }
        ensures { Becomes self.old (with_uses (map_loan (home_from d)) (says self.old)) self.new }
    {
        self.sweep_loans(who, d, true);
    }

    // Every loan to d is of the program that has d, so its places are all that there are to look at; where 64 have no tag of d, they are
    // passed over at once. `home` says which of two: a
    // closure in its place would need, in each contract here, what it makes of a loan and that the owner may have that.
    fn sweep_loans(&mut self, who: u32, d: u32, home: bool)
        requires program { who < 32 }
        requires owner { owner_is who (device_of self.old.words.now d) ≡ true }
        ensures { Becomes self.old (with_uses (map_loan (swept_loan home d)) (says self.old)) self.new }
    {
        for block in 0..16 {
            let first = 64 * block;
            if any_tag_of(self.words(), place_word(who, first), d) {
                for v in first..first + 64 {
                    self.sweep_place(Address { who, v }, d, home);
                }
            }
        }
    }

    fn sweep_place(&mut self, at: Address, d: u32, home: bool)
        ensures { Becomes self.old (with_uses (on_page at.who at.v (swept_loan home d)) (says self.old)) self.new }
    {
        let Place::Page(f) = self.place(at) else {
            return;
        };
        let Use::PageOf { loan, .. } = self.used(f) else {
            return;
        };
        let after = swept(loan, d, home);
        self.set_loan(at, f, after);
    }
}

fn swept(loan: Loan, d: u32, home: bool) -> Loan
    ensures { result ≡ swept_loan home d loan }
{
    match loan {
        Loan::Lent(m) | Loan::Leaving(m) if m.device != d => loan,
        Loan::Lent(m) if !home => Loan::Leaving(m),
        Loan::Leaving(_) if !home => loan,
        _ => Loan::Home,
    }
}
