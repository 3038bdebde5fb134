// recall: a page that a device has comes home.
ghost use Rattle.std.specs.Prelude.{◌≡◌, ℕ, ◌%◌, ◌<◌, ◌≤◌, ◌∷◌, MatchResult};
ghost use Rattle.ledger.specs.declared.Loan.TheVariants.{Home, Leaving};
ghost use Rattle.ledger.specs.declared.Place.TheVariants.{Page};
ghost use Rattle.ledger.specs.Room.{place_of};
ghost use Rattle.ledger.specs.Uses.{loan_in};
ghost use Rattle.ledger.specs.Rooms.{says, Same, Becomes};
ghost use Rattle.ledger.specs.Changes.{with_loan};
ghost use Rattle.house.specs.Event.{Told};
ghost use Rattle.house.specs.Machine.{Steps, counted, with_mem, put};
ghost use Rattle.house.specs.Meaning.{Quiet};
ghost use Rattle.house.specs.Mappings.{Away, Settled, recalled};
ghost use Rattle.house.specs.Operations.{Asked1};
ghost use Rattle.house.specs.Refusals.{answer_of, IfRefused, NeverNo, RecallRefused};
ghost use Rattle.house.specs.Serving.{BeginsIn, KeepsIn};

use crate::drains::Forgotten;
use crate::operations::write;
use crate::refusals::{Refusal, own_page, place};
use crate::{Answer, Call, Machine};
use ledger::frames::use_at;
use ledger::slots::low_at;
use ledger::{Address, Loan, Mapping, Room, Use};

// A page in a frame, and the lower table that has its entry.
#[derive(Clone, Copy)]
pub struct MappedPage {
    frame: u32,
    table: u32,
    to: Mapping,
}

// The page is not home.
fn away(used: Use) -> Result<Mapping, Refusal>
    ensures { MatchResult result (λ l. recalled (loan_in used) ≡ Leaving l) (λ e. (e ≡ Refusal.WrongLoan) × (loan_in used ≡ Home)) }
{
    match used {
        Use::PageOf {
            loan: Loan::Lent(m) | Loan::Leaving(m),
            ..
        } => Ok(m),
        _ => Err(Refusal::WrongLoan),
    }
}

// The mapping of the page in frame f, which is at this place.
fn mapped(room: &Room, at: Address, f: u32) -> Result<MappedPage, Refusal>
    requires { place_of room.now.words.now at.who at.v ≡ Page f }
    ensures { MatchResult result (λ m. Away (says room.now) at.who at.v m.frame m.table m.to) (λ e. (e ≡ Refusal.WrongLoan) × (loan_in ((says room.now).used f) ≡ Home)) }
{
    let to = away(use_at(room.words(), f))?;
    let table = low_at(room.words(), to.slot()).unwrap();
    Ok(MappedPage {
        frame: f,
        table,
        to,
    })
}

// What a recall finds in the room: how the page is mapped, or why it is refused.
fn plan_recall(room: &Room, who: u32, v: u32) -> Result<MappedPage, Refusal>
    requires { who < 32 }
    ensures { MatchResult result (λ m. (v < 1024) × Away (says room.now) who v m.frame m.table m.to) (λ e. RecallRefused (says room.now) who v e) }
{
    place(v)?;
    let at = Address { who, v };
    let f = own_page(room, at)?;
    mapped(room, at, f)
}

// From now on the page is leaving.
fn let_go(room: &mut Room, at: Address, m: MappedPage)
    requires { Away (says room.old) at.who at.v m.frame m.table m.to }
    ensures { Becomes room.old (with_loan at.who at.v m.frame (Leaving m.to) (says room.old)) room.new }
{
    room.set_loan(at, m.frame, Loan::Leaving(m.to));
}

// The page is home: its device was forgotten, in this call.
fn bring_home(room: &mut Room, at: Address, m: MappedPage, forgotten: Forgotten)
    requires page { place_of room.old.words.now at.who at.v ≡ Page m.frame }
    requires forgotten { forgotten.device ≡ m.to.device }
    ensures { Becomes room.old (with_loan at.who at.v m.frame Home (says room.old)) room.new }
{
    forgotten.spend(m.to.device);
    room.set_loan(at, m.frame, Loan::Home);
}

// Clears the entry of the page, and nothing else.
fn unmap<M: Machine>(w: &mut M, m: MappedPage)
    requires soon { 0 < (M.hw w.old).left }
    requires table { m.table < (M.hw w.old).frames }
    ensures steps { Steps (counted (with_mem (put m.table (m.to.page % 512) 0 (M.hw w.old).mem) (M.hw w.old))) (M.seen w.old) (M.hw w.new) (M.seen w.new) }
    ensures asked { Asked1 (M.hw w.old) (M.hw w.new) }
{
    write(w, m.table, m.to.word(), 0);
}

// Asks the IOMMU once to forget the device: the page is home if it has, and else leaving still.
fn settle<M: Machine>(w: &mut M, room: &mut Room, at: Address, m: MappedPage) -> Answer
    requires soon { 0 < (M.hw w.old).left }
    requires device { m.to.device < (M.hw w.old).devices }
    requires page { place_of room.old.words.now at.who at.v ≡ Page m.frame }
    ensures settled { Settled room.old.frames at.who at.v m.frame m.to.device room.old.words.now room.new.words.now (M.hw w.old) (M.seen w.old) (M.hw w.new) (M.seen w.new) result }
    ensures same { Same room.old room.new }
{
    match Forgotten::ask(w, m.to.device) {
        Some(forgotten) => {
            bring_home(room, at, m, forgotten);
            Answer::Done
        }
        None => Answer::Later,
    }
}

// One's page at v, which a device has, comes home. Its entry is cleared, and the IOMMU is asked once to forget the device: the call
// takes effect at the moment of that answer, and if it was no, the page is leaving still.
pub fn recall<M: Machine>(w: &mut M, room: &mut Room, who: u32, v: u32) -> Result<Answer, Refusal>
    requires soon { 2048 ≤ (M.hw w.old).left }
    requires begins { BeginsIn room.old who (Call.Recall v) (M.hw w.old) (M.seen w.old) }
    ensures told { KeepsIn room.old room.new Quiet (M.hw w.new) (Told who (Call.Recall v) (answer_of result) ∷ M.seen w.new) }
    ensures accepted { NeverNo result }
    ensures refused { IfRefused result ((room.new ≡ room.old) × (M.hw w.new ≡ M.hw w.old) × (M.seen w.new ≡ M.seen w.old)) }
{
    let m = plan_recall(room, who, v)?;
    let at = Address { who, v };
    let_go(room, at, m);
    unmap(w, m);
    Ok(settle(w, room, at, m))
}
