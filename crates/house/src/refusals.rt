// Why a call is refused: the reasons, their numbers, and the tests that several calls share.
ghost use Rattle.std.specs.Prelude.{◌≡◌, ℕ, ◌<◌, ◌≤◌, true, false, MatchResult, ◌≢◌};
ghost use Rattle.ledger.specs.Room.{place_of, device_of};
ghost use Rattle.ledger.specs.declared.Place.TheVariants.{Nothing, Page};
ghost use Rattle.ledger.specs.declared.Device.TheVariants.{Shut, Opened};
ghost use Rattle.ledger.specs.declared.Loan.TheVariants.{Home};
ghost use Rattle.ledger.specs.declared.Use.TheVariants.{PageOf};
ghost use Rattle.ledger.specs.Rooms.{says};
ghost use Rattle.ledger.specs.Uses.{loan_in, is_at, owner_is};
ghost use Rattle.house.specs.declared.Answer.TheVariants.{No};
ghost use Rattle.house.specs.Lends.{Untaken};
ghost use Rattle.house.specs.Refusals.{number_of};

use crate::Answer;
use ledger::devices::device_at;
use ledger::frames::use_at;
use ledger::places::place_at;
use ledger::{Address, Device, Loan, Place, Room, Use};

// The reasons, by their numbers.
#[derive(Clone, Copy, Debug, PartialEq, Eq)]
pub enum Refusal {
    OutOfRange = 1,
    NoPage = 2,
    Occupied = 3,
    WrongLoan = 4,
    NotYours = 5,
    Held = 6,
    NoFrame = 7,
    NotPermitted = 8,
    NotBuilt = 9,
}

impl Refusal {
    pub fn number(self) -> u32
        ensures { result ≡ number_of self }
    {
        self as u32
    }

    // Refused for this reason, unless `holds`.
    pub fn unless(self, holds: bool) -> Result<(), Refusal>
        ensures { MatchResult result (λ _. holds ≡ true) (λ e. (e ≡ self) × (holds ≡ false)) }
    {
        if holds { Ok(()) } else { Err(self) }
    }
}

// What a program is told.
impl From<Refusal> for Answer {
    ghost from_gives = { λ e a. a ≡ No (number_of e) };

    fn from(e: Refusal) -> Answer {
        Answer::No(e.number())
    }
}

// A place of an address space. A call's numbers become an Address only once this has tested them, and stay numbers until then.
pub fn place(v: u32) -> Result<(), Refusal>
    ensures { MatchResult result (λ _. v < 1024) (λ e. (e ≡ Refusal.OutOfRange) × (1024 ≤ v)) }
{
    Refusal::OutOfRange.unless(v < 1024)
}

// Nothing is shown at a place.
pub fn vacant(room: &Room, at: Address) -> Result<(), Refusal>
    ensures { MatchResult result (λ _. place_of room.now.words.now at.who at.v ≡ Nothing) (λ e. (e ≡ Refusal.Occupied) × (place_of room.now.words.now at.who at.v ≢ Nothing)) }
{
    Refusal::Occupied.unless(matches!(place_at(room.words(), at), Place::Nothing))
}

// The frame of one's own page at a place. A match, since it gives what it finds.
pub fn own_page(room: &Room, at: Address) -> Result<u32, Refusal>
    ensures { MatchResult result (λ f. place_of room.now.words.now at.who at.v ≡ Page f) (λ e. (e ≡ Refusal.NoPage) × ((f : ℕ) → place_of room.now.words.now at.who at.v ≢ Page f)) }
{
    match place_at(room.words(), at) {
        Place::Page(f) => Ok(f),
        _ => Err(Refusal::NoPage),
    }
}

// The page in frame f, which is at this place, is home.
pub fn at_home(room: &Room, at: Address, f: u32) -> Result<(), Refusal>
    requires { place_of room.now.words.now at.who at.v ≡ Page f }
    ensures { MatchResult result (λ _. (says room.now).used f ≡ PageOf at.who at.v Home) (λ e. (e ≡ Refusal.WrongLoan) × (loan_in ((says room.now).used f) ≢ Home)) }
{
    let home = matches!(
        use_at(room.words(), f),
        Use::PageOf {
            loan: Loan::Home,
            ..
        }
    );
    Refusal::WrongLoan.unless(home)
}

// A device of the machine.
pub fn device(devices: u32, d: u32) -> Result<(), Refusal>
    ensures { MatchResult result (λ _. d < devices) (λ e. (e ≡ Refusal.OutOfRange) × (devices ≤ d)) }
{
    Refusal::OutOfRange.unless(d < devices)
}

// Device d is shut.
pub fn shut(room: &Room, d: u32) -> Result<(), Refusal>
    requires { d < 32 }
    ensures { MatchResult result (λ _. device_of room.now.words.now d ≡ Shut) (λ e. (e ≡ Refusal.Held) × (device_of room.now.words.now d ≢ Shut)) }
{
    Refusal::Held.unless(matches!(device_at(room.words(), d), Device::Shut))
}

// No page is lent to d at p, or leaving it there: one that leaves may still be reached.
pub fn untaken(room: &Room, d: u32, p: u32) -> Result<(), Refusal>
    requires { d < 32 }
    ensures { MatchResult result (λ _. Untaken (says room.now) d p) (λ e. (e ≡ Refusal.Occupied) × ((g : ℕ) × (is_at d p (loan_in ((says room.now).used g)) ≡ true))) }
{
    Refusal::Occupied.unless(!room.page_taken(d, p))
}

// `who` has device d open.
pub fn open_by(room: &Room, who: u32, d: u32) -> Result<(), Refusal>
    requires { d < 32 }
    ensures { MatchResult result (λ _. device_of room.now.words.now d ≡ Opened who) (λ e. (e ≡ Refusal.NotYours) × (device_of room.now.words.now d ≢ Opened who)) }
{
    Refusal::NotYours.unless(matches!(device_at(room.words(), d), Device::Opened(c) if c == who))
}

// A program.
pub fn program(c: u32) -> Result<(), Refusal>
    ensures { MatchResult result (λ _. c < 32) (λ e. (e ≡ Refusal.OutOfRange) × (32 ≤ c)) }
{
    Refusal::OutOfRange.unless(c < 32)
}

// Whether `who` has the device, open or closing.
pub fn has_device(room: &Room, who: u32, d: u32) -> bool
    requires { d < 32 }
    ensures { result ≡ owner_is who (device_of room.now.words.now d) }
{
    matches!(device_at(room.words(), d), Device::Opened(by) | Device::Closing(by) if by == who)
}

// `who` has the device, open or closing.
pub fn held(room: &Room, who: u32, d: u32) -> Result<(), Refusal>
    requires { d < 32 }
    ensures { MatchResult result (λ _. owner_is who (device_of room.now.words.now d) ≡ true) (λ e. (e ≡ Refusal.NotYours) × (owner_is who (device_of room.now.words.now d) ≡ false)) }
{
    Refusal::NotYours.unless(has_device(room, who, d))
}

// Program 0 may end programs, and no other.
pub fn may_end(who: u32) -> Result<(), Refusal>
    ensures { MatchResult result (λ _. who ≡ 0) (λ e. (e ≡ Refusal.NotPermitted) × (who ≢ 0)) }
{
    Refusal::NotPermitted.unless(who == 0)
}
