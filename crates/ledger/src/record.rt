// What is known of a frame, packed into two words.
ghost use Rattle.std.specs.Prelude.{◌≡◌, ◌<◌};
ghost use Rattle.ledger.specs.Words.{Canonical, UseFits, LoanFits, WhichFits, low_word, high_word, loan_word, mapping_word, which_word, use_from, loan_from, mapping_from, which_from, number_from};

use crate::{Loan, Mapping, Use, Which};

// Two words that packing gives: unpacking and packing them gives the same two.
#[derive(Clone, Copy)]
pub struct Record {
    pub low: u64,
    pub high: u64,
    ghost canonical: { Canonical low high },
}

impl Record {
    // The record of a use; unpacking it gives that use again. No `From`, which cannot ask that the use fits.
    pub fn pack(used: Use) -> Record
        requires { UseFits used }
        ensures words { (result.low ≡ low_word used) × (result.high ≡ high_word used) }
        ensures inverse { use_from result.low result.high ≡ used }
    {
        match used {
            Use::House => Record { low: 0, high: 0 },
            Use::TableOf { device, which } => Record {
                low: 1 + 4 * device as u64,
                high: which_word(which),
            },
            Use::Idle => Record { low: 2, high: 0 },
            Use::PageOf { who, place, loan } => Record {
                low: 3 + 4 * place as u64 + 4096 * who as u64,
                high: loan_word(loan),
            },
        }
    }

    // The use that a record stands for; packing it gives that record again.
    pub fn unpack(&self) -> Use
        ensures value { result ≡ use_from self.now.low self.now.high }
        ensures inverse { (low_word result ≡ self.now.low) × (high_word result ≡ self.now.high) }
    {
        read(self.low, self.high)
    }
}

// The parts of a record, both ways. No `From`: nothing but a record has them as words.
fn which_word(which: Which) -> u64
    requires { WhichFits which }
    ensures { result ≡ which_word which }
{
    match which {
        Which::Upper => 0,
        Which::Lower(slot) => slot as u64 + 1,
    }
}

fn loan_word(loan: Loan) -> u64
    requires { LoanFits loan }
    ensures { result ≡ loan_word loan }
{
    match loan {
        Loan::Home => 0,
        Loan::Lent(m) => 1 + mapping_word(m),
        Loan::Leaving(m) => 3 + mapping_word(m),
    }
}

fn mapping_word(m: Mapping) -> u64
    requires device { m.device < 32 }
    requires page { m.page < 262144 }
    ensures { result ≡ mapping_word m }
{
    m.writes as u64 + 4 * m.page as u64 + 1048576 * m.device as u64
}

// What any two words mean as a frame's record.
pub fn read(low: u64, high: u64) -> Use
    ensures { result ≡ use_from low high }
{
    match low % 4 {
        0 => Use::House,
        1 => Use::TableOf {
            device: (low / 4 % 32) as u32,
            which: read_which(high),
        },
        2 => Use::Idle,
        _ => Use::PageOf {
            who: (low / 4096 % 32) as u32,
            place: (low / 4 % 1024) as u32,
            loan: read_loan(high),
        },
    }
}

fn read_which(word: u64) -> Which
    ensures { result ≡ which_from word }
{
    if word == 0 {
        Which::Upper
    } else {
        Which::Lower(((word - 1) % 512) as u32)
    }
}

fn read_loan(word: u64) -> Loan
    ensures { result ≡ loan_from word }
{
    if word == 0 {
        return Loan::Home;
    }
    let m = read_mapping(word - 1);
    if (word - 1) / 2 % 2 == 1 {
        Loan::Leaving(m)
    } else {
        Loan::Lent(m)
    }
}

fn read_mapping(word: u64) -> Mapping
    ensures { result ≡ mapping_from word }
{
    Mapping {
        device: (word / 1048576 % 32) as u32,
        page: (word / 4 % 262144) as u32,
        writes: word % 2 == 1,
    }
}

// The number that a word holds as such, as a table's frame.
pub fn number(word: u64) -> u32
    ensures { result ≡ number_from word }
{
    (word % 131072) as u32
}
