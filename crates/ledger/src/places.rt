// What each place of each program shows, and its tag: where the page that it shows is lent. These take bare words:
// a Room asks that they are consistent, and between two writes they need not be.
ghost use Rattle.std.specs.Prelude.{◌≡◌, ℕ, ◌<◌, ◌≤◌, length};
ghost use Rattle.ledger.specs.Words.{PlaceFits, LoanFits, place_from, place_word, tag_at, tag_for};
ghost use Rattle.ledger.specs.Room.{place_of, tag_of};
ghost use Rattle.ledger.specs.View.{view_of, with_place, with_tag};

use crate::layout::place_word;
use crate::{Address, Loan, Place};

// A place's word is what it shows, which is below this, plus this times its tag.
pub(crate) const TAG: u64 = 131072;

pub fn place_at(words: &[u64], at: Address) -> Place
    requires { 65536 ≤ length words.now }
    ensures { result ≡ place_of words.now at.who at.v }
{
    Place::from(words[place_word(at.who, at.v)] % TAG)
}

// The place shows this, and has no tag: it shows no page, or one that is home.
pub fn set_place(words: &mut [u64], at: Address, shown: Place)
    requires long { 65536 ≤ length words.old }
    requires fits { PlaceFits shown }
    ensures view { (n : ℕ) → view_of n words.new ≡ with_place at.who at.v shown (view_of n words.old) }
    ensures tags { tag_of words.new ≡ with_tag at.who at.v 0 (tag_of words.old) }
{
    words[place_word(at.who, at.v)] = u64::from(shown);
}

// The place's tag: 0, or where the page that it shows is lent or leaving, as `loan_tag` has it.
pub(crate) fn tag_at(words: &[u64], at: Address) -> u64
    requires { 65536 ≤ length words.now }
    ensures { result ≡ tag_of words.now at.who at.v }
{
    words[place_word(at.who, at.v)] / TAG
}

// The place has the tag of this loan, and shows what it showed.
pub(crate) fn set_tag(words: &mut [u64], at: Address, loan: Loan)
    requires long { 65536 ≤ length words.old }
    requires fits { LoanFits loan }
    ensures view { (n : ℕ) → view_of n words.new ≡ view_of n words.old }
    ensures tags { tag_of words.new ≡ with_tag at.who at.v (tag_for loan) (tag_of words.old) }
{
    let word = place_word(at.who, at.v);
    words[word] = words[word] % TAG + TAG * tag(loan);
}

// A page at home has no tag.
fn tag(loan: Loan) -> u64
    requires { LoanFits loan }
    ensures tag { result ≡ tag_for loan }
    ensures small { result ≤ 8388608 }
{
    match loan {
        Loan::Home => 0,
        Loan::Lent(m) | Loan::Leaving(m) => loan_tag(m.device, m.page),
    }
}

// The tag of what is lent to d, or leaving it, at page p.
pub(crate) fn loan_tag(d: u32, p: u32) -> u64
    ensures { result ≡ tag_at d p }
{
    1 + p as u64 + 262144 * d as u64
}

impl From<Place> for u64 {
    ghost from_gives = { λ shown word. word ≡ place_word shown };

    fn from(shown: Place) -> u64 {
        match shown {
            Place::Nothing => 0,
            Place::Page(f) => f as u64 + 1,
            Place::Registers(d) => d as u64 + 65537,
        }
    }
}

impl From<u64> for Place {
    ghost from_gives = { λ word shown. shown ≡ place_from word };

    fn from(word: u64) -> Place {
        if word == 0 {
            Place::Nothing
        } else if word <= 65536 {
            Place::Page((word - 1) as u32)
        } else {
            Place::Registers(((word - 65537) % 32) as u32)
        }
    }
}
