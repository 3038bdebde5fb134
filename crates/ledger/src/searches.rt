// Searches over the room. They read bare words: a Room would ask more of the caller.
ghost use Rattle.std.specs.Prelude.{◌≡◌, ℕ, ◌+◌, ◌*◌, ◌<◌, ◌≤◌, true, length, Decides, MatchOption, ◌≢◌, slice_index};
ghost use Rattle.ledger.specs.declared.Use.TheVariants.{Idle};
ghost use Rattle.ledger.specs.Room.{use_of, place_of, device_of};
ghost use Rattle.ledger.specs.Uses.{is_at, loan_in, loan_shown, held_by_other};
ghost use Rattle.ledger.specs.Consistent.{Consistent};
ghost use Rattle.ledger.specs.Searches.{NextIdle};

use crate::blocks::bits;
use crate::devices::device_at;
use crate::frames::use_at;
use crate::layout::place_word;
use crate::places::{TAG, loan_tag, place_at, tag_at};
use crate::{Address, Device, Loan, Place, Room, Use};

// The first idle frame from `from` to below `to`; None only where there is none.
fn idle_between(words: &[u64], from: u32, to: u32) -> Option<u32>
    requires long { 65536 + 2 * to ≤ length words.now }
    requires order { from ≤ to }
    ensures { MatchOption result ((f : ℕ) → from ≤ f → f < to → use_of words.now f ≢ Idle) (λ f. (from ≤ f) × (f < to) × (use_of words.now f ≡ Idle) × ((g : ℕ) → from ≤ g → g < f → use_of words.now g ≢ Idle)) }
{
    (from..to).find(|&f| use_at(words, f) == Use::Idle)
}

// The first idle frame from `from` on, and where there is none, one before it; None only where no frame is idle.
pub fn find_idle(words: &[u64], frames: u32, from: u32) -> Option<u32>
    requires { 65536 + 2 * frames ≤ length words.now }
    ensures { MatchOption result ((f : ℕ) → f < frames → use_of words.now f ≢ Idle) (λ f. NextIdle words.now frames from f) }
{
    let start = from.min(frames);
    match idle_between(words, start, frames) {
        None => idle_between(words, 0, start),
        found => found,
    }
}

// Whether some frame is lent to d or leaving it at page p. Such a page is of the program that has d, so its places are all that
// there are to look at.
pub fn page_taken(words: &[u64], frames: u32, d: u32, p: u32) -> bool
    requires consistent { Consistent frames words.now }
    requires device { d < 32 }
    ensures { Decides result ((f : ℕ) × (f < frames) × (is_at d p (loan_in (use_of words.now f)) ≡ true)) }
{
    match device_at(words, d) {
        Device::Shut => false,
        Device::Opened(who) | Device::Closing(who) => lent_by(words, frames, who, d, p),
    }
}

// Whether a page that a place of `who` shows is lent to d or leaving it at page p. The places' tags tell, which lie in a row.
fn lent_by(words: &[u64], frames: u32, who: u32, d: u32, p: u32) -> bool
    requires consistent { Consistent frames words.now }
    requires program { who < 32 }
    ensures { Decides result ((v : ℕ) × (v < 1024) × (is_at d p (loan_shown (use_of words.now) (place_of words.now who v)) ≡ true)) }
{
    // No device has such a page.
    if p >= 262144 {
        return false;
    }
    let tag = loan_tag(d, p);
    let mut taken = false;
    for block in 0..16 {
        let first = 64 * block;
        if bits(words, place_word(who, first)) / TAG >= tag {
            // With no early return, so that several words can be compared at a time.
            for v in first..first + 64 {
                taken |= tag_at(words, Address { who, v }) == tag;
            }
        }
    }
    taken
}

// The loan of the page that a place shows, by the frame's record. Tests hold the tags against it.
pub(crate) fn loan_shown(words: &[u64], frames: u32, at: Address) -> Loan
    requires { Consistent frames words.now }
    ensures { result ≡ loan_shown (use_of words.now) (place_of words.now at.who at.v) }
{
    match place_at(words, at) {
        Place::Page(f) => loan_in(use_at(words, f)),
        _ => Loan::Home,
    }
}

impl Room<'_> {
    // As the function of this name, which a caller has who may not write the words.
    pub fn page_taken(&self, d: u32, p: u32) -> bool
        requires { d < 32 }
        ensures { Decides result ((f : ℕ) × (f < self.now.frames) × (is_at d p (loan_in (use_of self.now.words.now f)) ≡ true)) }
    {
        page_taken(self.words, self.frames, d, p)
    }
}

fn loan_in(used: Use) -> Loan
    ensures { result ≡ loan_in used }
{
    match used {
        Use::PageOf { loan, .. } => loan,
        _ => Loan::Home,
    }
}

// Lent to d, or leaving it, at page p.
pub(crate) fn is_at(loan: Loan, d: u32, p: u32) -> bool
    ensures { result ≡ is_at d p loan }
{
    match loan {
        Loan::Home => false,
        Loan::Lent(m) | Loan::Leaving(m) => d == m.device && p == m.page,
    }
}

// Whether another program than `who` has d, open or closing.
pub fn held_by_other(words: &[u64], who: u32, d: u32) -> bool
    requires long { 65536 ≤ length words.now }
    requires device { d < 32 }
    ensures { result ≡ held_by_other who (device_of words.now d) }
{
    match device_at(words, d) {
        Device::Shut => false,
        Device::Opened(other) | Device::Closing(other) => who != other,
    }
}

// Whether another program than `who` has a device of this group, open or closing; `groups` has each device's group.
pub fn group_held_by_other(words: &[u64], groups: &[u32], who: u32, group: u32) -> bool
    requires long { 65536 ≤ length words.now }
    requires few { length groups.now ≤ 32 }
    ensures { Decides result ((e : ℕ) × (e < length groups.now) × (slice_index groups.now e ≡ group) × (held_by_other who (device_of words.now e) ≡ true)) }
{
    groups.iter().enumerate().any(|(e, g)| *g == group && held_by_other(words, who, e as u32))
}
