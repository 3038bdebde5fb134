// end: a program's devices are closed, and once all of them were forgotten its pages are idle.
ghost use Rattle.std.specs.Prelude.{◌≡◌, ℕ, ◌<◌, ◌≤◌, true, false, ◌∷◌, MatchResult, ◌≢◌};
ghost use Rattle.ledger.specs.declared.Place.TheVariants.{Registers};
ghost use Rattle.ledger.specs.Room.{device_of, place_of};
ghost use Rattle.ledger.specs.Uses.{owner_is, shows_any};
ghost use Rattle.ledger.specs.Changes.{vacated, ended_below};
ghost use Rattle.ledger.specs.Rooms.{says, Same};
ghost use Rattle.ledger.specs.View.{view_of};
ghost use Rattle.house.specs.Event.{Told};
ghost use Rattle.house.specs.Meaning.{Quiet};
ghost use Rattle.house.specs.Taken.{any_registers_taken, all_taken};
ghost use Rattle.house.specs.Closures.{shows_some, bare_at, bare_below, ClosedOne, ClosedSoFar};
ghost use Rattle.house.specs.Refusals.{answer_of, IfRefused, NeverNo, EndRefused};
ghost use Rattle.house.specs.Serving.{BeginsIn, KeepsIn};

use crate::closing::forget;
use crate::operations::write;
use crate::refusals::{Refusal, has_device, may_end, program};
use crate::sweeps::{Sweep, unmap_each};
use crate::{Answer, Call, DEVICE_TABLE, Machine};
use ledger::places::place_at;
use ledger::{Address, Place, Room};

// Whether `who` may end program p.
fn plan_end(who: u32, p: u32) -> Result<(), Refusal>
    ensures { MatchResult result (λ _. (p < 32) × (who ≡ 0)) (λ e. EndRefused who p e) }
{
    program(p)?;
    may_end(who)
}

// The registers of any device.
#[derive(Clone, Copy)]
struct AnyRegisters;

impl Sweep for AnyRegisters {
    ghost shows = { λ _ p. shows_some p };

    ghost at = { λ _ c k v. bare_at c k v };

    ghost below = { λ _ c k v. bare_below c k v };

    fn take(self, room: &mut Room, place: Address) -> bool {
        match place_at(room.words(), place) {
            Place::Registers(d) => room.hide_registers(place, d),
            _ => false,
        }
    }

    fn present(self, room: &Room, who: u32, first: u32) -> bool {
        room.any_registers(who, first)
    }

    ghost laws = { λ _. any_registers_taken };
}

// All that is there: a page becomes idle.
#[derive(Clone, Copy)]
struct All;

impl Sweep for All {
    ghost shows = { λ _ p. shows_any p };

    ghost at = { λ _ c k v. vacated c k v };

    ghost below = { λ _ c k v. ended_below c k v };

    fn take(self, room: &mut Room, place: Address) -> bool {
        room.vacate(place)
    }

    fn present(self, room: &Room, who: u32, first: u32) -> bool {
        room.any_shown(who, first)
    }

    ghost laws = { λ _. all_taken };
}

// If `who` has d, d leaves frame 0 and is asked once to be forgotten; says whether nothing of it is left to wait for.
fn close_held<M: Machine>(w: &mut M, room: &mut Room, who: u32, d: u32) -> bool
    requires soon { 2 ≤ (M.hw w.old).left }
    requires some { 0 < (M.hw w.old).frames }
    requires program { who < 32 }
    requires device { d < 32 }
    requires there { d < (M.hw w.old).devices }
    requires hidden { owner_is who (device_of room.old.words.now d) ≡ true → (a b : ℕ) → place_of room.old.words.now a b ≢ Registers d }
    ensures closed { ClosedOne (owner_is who (device_of room.old.words.now d)) who d (says room.old) (M.hw w.old) (M.seen w.old) (view_of room.old.frames room.new.words.now) result (M.hw w.new) (M.seen w.new) }
    ensures same { Same room.old room.new }
{
    if !has_device(room, who, d) {
        return true;
    }
    write(w, DEVICE_TABLE, d, 0);
    forget(w, room, who, d)
}

// Every device of `who` leaves frame 0 and is asked once to be forgotten, upwards, also after a no; says whether all were.
// `devices` is the machine's own number, and its bound a clause.
fn close_all<M: Machine>(w: &mut M, room: &mut Room, devices: u32, who: u32) -> bool
    requires soon { 64 ≤ (M.hw w.old).left }
    requires some { 0 < (M.hw w.old).frames }
    requires program { who < 32 }
    requires few { devices ≤ 32 }
    requires devices { devices ≡ (M.hw w.old).devices }
    requires hidden { (a b d : ℕ) → place_of room.old.words.now a b ≡ Registers d → owner_is who (device_of room.old.words.now d) ≢ true }
    ensures closed { ClosedSoFar (λ d. owner_is who (device_of room.old.words.now d)) who (says room.old) (M.hw w.old) (M.seen w.old) devices (view_of room.old.frames room.new.words.now) result (M.hw w.new) (M.seen w.new) }
    ensures same { Same room.old room.new }
{
    let mut all = true;
    for d in 0..devices {
        all &= close_held(w, room, who, d);
    }
    all
}

// Each device of p is closed, by itself; if all of them were forgotten, all pages of p are idle and its places show nothing. It
// takes effect after its last operation, when the IOMMU has answered for every device. Each place is unmapped once at most.
pub fn end<M: Machine>(w: &mut M, room: &mut Room, who: u32, p: u32) -> Result<Answer, Refusal>
    requires soon { 2048 ≤ (M.hw w.old).left }
    requires begins { BeginsIn room.old who (Call.End p) (M.hw w.old) (M.seen w.old) }
    ensures told { KeepsIn room.old room.new Quiet (M.hw w.new) (Told who (Call.End p) (answer_of result) ∷ M.seen w.new) }
    ensures accepted { NeverNo result }
    ensures refused { IfRefused result ((room.new ≡ room.old) × (M.hw w.new ≡ M.hw w.old) × (M.seen w.new ≡ M.seen w.old)) }
{
    plan_end(who, p)?;
    let devices = w.devices();
    unmap_each(w, room, p, AnyRegisters);
    if !close_all(w, room, devices, p) {
        return Ok(Answer::Later);
    }
    unmap_each(w, room, p, All);
    Ok(Answer::Done)
}
