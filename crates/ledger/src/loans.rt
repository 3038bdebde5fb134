// Lending a page to a device, and taking it back.
ghost use Rattle.std.specs.Prelude.{◌≡◌, ℕ, ◌/◌, ◌<◌, true, ◌≢◌};
ghost use Rattle.ledger.specs.declared.Loan.TheVariants.{Lent};
ghost use Rattle.ledger.specs.declared.Place.TheVariants.{Page};
ghost use Rattle.ledger.specs.declared.Device.TheVariants.{Opened};
ghost use Rattle.ledger.specs.Room.{use_of, place_of, device_of, low_of};
ghost use Rattle.ledger.specs.Uses.{is_at, loan_in, recalled_loan};
ghost use Rattle.ledger.specs.Changes.{with_loan};
ghost use Rattle.ledger.specs.Rooms.{says, Becomes};

use crate::{Address, Loan, Mapping, Room, Use};

impl Room<'_> {
    // Frame f, the page at a place, is lent: to a device that its owner has open, at a page whose slot has a lower table and which
    // no other frame takes.
    pub fn lend_page(&mut self, at: Address, f: u32, to: Mapping)
        requires place { place_of self.old.words.now at.who at.v ≡ Page f }
        requires open { device_of self.old.words.now to.device ≡ Opened at.who }
        requires page { to.page < 262144 }
        requires table { low_of self.old.words.now to.device (to.page / 512) ≢ 0 }
        requires free { (g : ℕ) → g < self.old.frames → is_at to.device to.page (loan_in (use_of self.old.words.now g)) ≢ true }
        ensures { Becomes self.old (with_loan at.who at.v f (Lent to) (says self.old)) self.new }
    {
        self.set_loan(at, f, Loan::Lent(to));
    }

    // The page at a place, in frame f, comes home; or, if it may not yet, it is leaving if it was lent. `home` is a bool, being the
    // answer to a question that the caller has asked: an enum of two names would be made from it at the one call.
    pub fn recall_page(&mut self, at: Address, f: u32, home: bool)
        requires { place_of self.old.words.now at.who at.v ≡ Page f }
        ensures { Becomes self.old (with_loan at.who at.v f (recalled_loan home (loan_in (use_of self.old.words.now f))) (says self.old)) self.new }
    {
        let after = recalled(self.used(f), home);
        self.set_loan(at, f, after);
    }
}

fn recalled(used: Use, home: bool) -> Loan
    ensures { result ≡ recalled_loan home (loan_in used) }
{
    if home {
        return Loan::Home;
    }
    match used {
        Use::PageOf {
            loan: Loan::Lent(m),
            ..
        } => Loan::Leaving(m),
        Use::PageOf { loan, .. } => loan,
        _ => Loan::Home,
    }
}
