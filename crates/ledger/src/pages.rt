// The pages of programs: a page stands at one place of one program, which shows it.
// What a frame is used for and what a place shows are clauses: they hold of a room until its next write, so no type has them.
ghost use Rattle.std.specs.Prelude.{◌≡◌, ℕ, ◌<◌, true};
ghost use Rattle.ledger.specs.declared.Loan.TheVariants.{Home};
ghost use Rattle.ledger.specs.declared.Use.TheVariants.{Idle, PageOf};
ghost use Rattle.ledger.specs.declared.Place.TheVariants.{Nothing, Page};
ghost use Rattle.ledger.specs.Room.{use_of, place_of, device_of, low_of};
ghost use Rattle.ledger.specs.View.{with_use, with_place};
ghost use Rattle.ledger.specs.Uses.{is_at, loan_in};
ghost use Rattle.ledger.specs.Words.{LoanFits};
ghost use Rattle.ledger.specs.Consistent.{LoanOk};
ghost use Rattle.ledger.specs.Changes.{Settles, new_page, freed_page, given_page, with_loan};
ghost use Rattle.ledger.specs.Rooms.{says, Becomes};

use crate::frames::set_use;
use crate::places::{set_place, set_tag};
use crate::{Address, Loan, Place, Room, Use};

impl Room<'_> {
    // The idle frame f becomes the page at a place where nothing was shown.
    pub fn new_page(&mut self, at: Address, f: u32)
        requires place { place_of self.old.words.now at.who at.v ≡ Nothing }
        requires within { f < self.old.frames }
        requires frame { use_of self.old.words.now f ≡ Idle }
        ensures { Becomes self.old (new_page at.who at.v f (says self.old)) self.new }
    {
        let page = page_of(at, Loan::Home);
        self.settle(at, f, page, Place::Page(f));
    }

    // Frame f, the page at this place, becomes idle, and the place shows nothing.
    pub fn free_page(&mut self, at: Address, f: u32)
        requires { place_of self.old.words.now at.who at.v ≡ Page f }
        ensures { Becomes self.old (freed_page at.who at.v f (says self.old)) self.new }
    {
        self.settle(at, f, Use::Idle, Place::Nothing);
    }

    // Frame f is used so and the place shows this: an idle frame becomes a page, or a page becomes idle.
    fn settle(&mut self, at: Address, f: u32, used: Use, shown: Place)
        requires within { f < self.old.frames }
        requires settles { Settles self.old.words.now at.who at.v f used shown }
        ensures { Becomes self.old (with_place at.who at.v shown (with_use f used (says self.old))) self.new }
    {
        let words = &mut *self.words;
        set_use(words, f, used);
        set_place(words, at, shown);
    }

    // Frame f, the page at one place, becomes that at another, where nothing was shown; it is home.
    pub fn give_page(&mut self, from: Address, to: Address, f: u32)
        requires from { place_of self.old.words.now from.who from.v ≡ Page f }
        requires to { place_of self.old.words.now to.who to.v ≡ Nothing }
        ensures { Becomes self.old (given_page from.who from.v to.who to.v f (says self.old)) self.new }
    {
        self.free_page(from, f);
        self.new_page(to, f);
    }

    // Frame f, the page at this place, has this loan: one that its owner may have, at a page of a device where no other frame is.
    pub fn set_loan(&mut self, at: Address, f: u32, loan: Loan)
        requires place { place_of self.old.words.now at.who at.v ≡ Page f }
        requires fits { LoanFits loan }
        requires may { LoanOk (device_of self.old.words.now) (low_of self.old.words.now) at.who loan }
        requires alone { (g d p : ℕ) → g < self.old.frames → is_at d p loan ≡ true → is_at d p (loan_in (use_of self.old.words.now g)) ≡ true → g ≡ f }
        ensures { Becomes self.old (with_loan at.who at.v f loan (says self.old)) self.new }
    {
        let words = &mut *self.words;
        set_use(words, f, page_of(at, loan));
        set_tag(words, at, loan);
    }
}

fn page_of(at: Address, loan: Loan) -> Use
    ensures { result ≡ PageOf at.who at.v loan }
{
    Use::PageOf {
        who: at.who,
        place: at.v,
        loan,
    }
}
