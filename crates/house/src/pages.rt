// get, free and give: pages of programs.
ghost use Rattle.std.specs.Prelude.{◌≡◌, ℕ, ◌+◌, ◌*◌, ◌<◌, ◌≤◌, ◌∷◌, MatchResult};
ghost use Rattle.ledger.specs.declared.Loan.TheVariants.{Home};
ghost use Rattle.ledger.specs.declared.Use.TheVariants.{Idle, PageOf};
ghost use Rattle.ledger.specs.declared.Place.TheVariants.{Nothing, Page};
ghost use Rattle.ledger.specs.Room.{use_of, place_of};
ghost use Rattle.ledger.specs.Rooms.{says};
ghost use Rattle.house.specs.Event.{Told};
ghost use Rattle.house.specs.Meaning.{Quiet};
ghost use Rattle.house.specs.Refusals.{answer_of, IfRefused, NeverNo, GetRefused, FreeRefused, GiveRefused};
ghost use Rattle.house.specs.Serving.{BeginsIn, KeepsIn};

use crate::frames::Taken;
use crate::operations::hide;
use crate::refusals::{Refusal, at_home, own_page, place, program, vacant};
use crate::{Answer, Call, Machine};
use ledger::{Address, Room};

// What a get finds in the room: an idle frame for it, or why it is refused.
fn plan_get(room: &Room, from: u32, who: u32, v: u32) -> Result<Taken, Refusal>
    requires { who < 32 }
    ensures { MatchResult result (λ t. (v < 1024) × (place_of room.now.words.now who v ≡ Nothing) × (t.frame < room.now.frames) × (use_of room.now.words.now t.frame ≡ Idle)) (λ e. GetRefused (says room.now) room.now.frames who v e) }
{
    place(v)?;
    vacant(room, Address { who, v })?;
    Taken::take(room, from)
}

// An idle frame, made noughts, becomes one's page at v. It takes effect when the place shows it.
pub fn get<M: Machine>(
    w: &mut M,
    room: &mut Room,
    next: &mut u32,
    who: u32,
    v: u32,
) -> Result<Answer, Refusal>
    requires soon { 2048 ≤ (M.hw w.old).left }
    requires begins { BeginsIn room.old who (Call.Get v) (M.hw w.old) (M.seen w.old) }
    ensures told { KeepsIn room.old room.new Quiet (M.hw w.new) (Told who (Call.Get v) (answer_of result) ∷ M.seen w.new) }
    ensures accepted { NeverNo result }
    ensures refused { IfRefused result ((room.new ≡ room.old) × (M.hw w.new ≡ M.hw w.old) × (M.seen w.new ≡ M.seen w.old) × (next.new ≡ next.old)) }
{
    let taken = plan_get(room, *next, who, v)?;
    taken.clear(w);
    let f = taken.into_page(room, Address { who, v });
    w.show(who, v, f);
    *next = f + 1;
    Ok(Answer::Done)
}

// What a free finds in the room: the frame of the page, or why it is refused.
fn plan_free(room: &Room, who: u32, v: u32) -> Result<u32, Refusal>
    requires { who < 32 }
    ensures { MatchResult result (λ f. (v < 1024) × (place_of room.now.words.now who v ≡ Page f) × ((says room.now).used f ≡ PageOf who v Home)) (λ e. FreeRefused (says room.now) who v e) }
{
    place(v)?;
    let at = Address { who, v };
    let f = own_page(room, at)?;
    at_home(room, at, f)?;
    Ok(f)
}

// One's page at v, which is home, becomes idle. It takes effect when the place shows nothing.
pub fn free<M: Machine>(w: &mut M, room: &mut Room, who: u32, v: u32) -> Result<Answer, Refusal>
    requires soon { 2048 ≤ (M.hw w.old).left }
    requires begins { BeginsIn room.old who (Call.Free v) (M.hw w.old) (M.seen w.old) }
    ensures told { KeepsIn room.old room.new Quiet (M.hw w.new) (Told who (Call.Free v) (answer_of result) ∷ M.seen w.new) }
    ensures accepted { NeverNo result }
    ensures refused { IfRefused result ((room.new ≡ room.old) × (M.hw w.new ≡ M.hw w.old) × (M.seen w.new ≡ M.seen w.old)) }
{
    let f = plan_free(room, who, v)?;
    w.hide(who, v);
    room.free_page(Address { who, v }, f);
    Ok(Answer::Done)
}

// What a give finds in the room: the frame of the page, or why it is refused.
fn plan_give(room: &Room, who: u32, v: u32, to: u32, at: u32) -> Result<u32, Refusal>
    requires { who < 32 }
    ensures { MatchResult result (λ f. (v < 1024) × (to < 32) × (at < 1024) × (place_of room.now.words.now who v ≡ Page f) × (place_of room.now.words.now to at ≡ Nothing) × ((says room.now).used f ≡ PageOf who v Home) × (f < room.now.frames)) (λ e. GiveRefused (says room.now) who v to at e) }
{
    place(v)?;
    program(to)?;
    place(at)?;
    let from = Address { who, v };
    let f = own_page(room, from)?;
    vacant(room, Address { who: to, v: at })?;
    at_home(room, from, f)?;
    Ok(f)
}

// One's page at v, which is home, becomes that of `to` at another place: the old place is hidden first. It takes effect when the
// new one shows the page.
pub fn give<M: Machine>(
    w: &mut M,
    room: &mut Room,
    who: u32,
    v: u32,
    to: u32,
    at: u32,
) -> Result<Answer, Refusal>
    requires soon { 2048 ≤ (M.hw w.old).left }
    requires begins { BeginsIn room.old who (Call.Give v to at) (M.hw w.old) (M.seen w.old) }
    ensures told { KeepsIn room.old room.new Quiet (M.hw w.new) (Told who (Call.Give v to at) (answer_of result) ∷ M.seen w.new) }
    ensures accepted { NeverNo result }
    ensures refused { IfRefused result ((room.new ≡ room.old) × (M.hw w.new ≡ M.hw w.old) × (M.seen w.new ≡ M.seen w.old)) }
{
    let f = plan_give(room, who, v, to, at)?;
    hide(w, who, v);
    room.give_page(Address { who, v }, Address { who: to, v: at }, f);
    w.show(to, at, f);
    Ok(Answer::Done)
}
