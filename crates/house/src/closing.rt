// close: a device is shut once the IOMMU has forgotten it, and closing until then.
ghost use Rattle.std.specs.Prelude.{◌≡◌, ℕ, ◌<◌, ◌≤◌, true, false, ◌∷◌, MatchResult, ◌≢◌};
ghost use Rattle.ledger.specs.declared.Place.TheVariants.{Registers};
ghost use Rattle.ledger.specs.Room.{device_of, place_of};
ghost use Rattle.ledger.specs.Uses.{owner_is, shows_registers};
ghost use Rattle.ledger.specs.Changes.{unregistered, hidden_below, shut_device};
ghost use Rattle.ledger.specs.Rooms.{says, Becomes};
ghost use Rattle.house.specs.Event.{Told};
ghost use Rattle.house.specs.Machine.{Drains};
ghost use Rattle.house.specs.Meaning.{Quiet};
ghost use Rattle.house.specs.Operations.{Asked1};
ghost use Rattle.house.specs.Taken.{registers_taken};
ghost use Rattle.house.specs.Closures.{closed_as};
ghost use Rattle.house.specs.Refusals.{answer_of, IfRefused, NeverNo, CloseRefused};
ghost use Rattle.house.specs.Serving.{BeginsIn, KeepsIn};

use crate::drains::Forgotten;
use crate::operations::write;
use crate::refusals::{Refusal, device, held};
use crate::sweeps::{Sweep, unmap_each};
use crate::{Answer, Call, DEVICE_TABLE, Machine};
use ledger::{Address, Room};

// What a close finds in the room: that `who` has the device, or why it is refused.
fn plan_close(room: &Room, devices: u32, who: u32, d: u32) -> Result<(), Refusal>
    requires { devices ≤ 32 }
    ensures { MatchResult result (λ _. (d < devices) × (owner_is who (device_of room.now.words.now d) ≡ true)) (λ e. CloseRefused (says room.now) devices who d e) }
{
    device(devices, d)?;
    held(room, who, d)
}

// The registers of a device.
#[derive(Clone, Copy)]
struct RegistersOf {
    device: u32,
}

impl Sweep for RegistersOf {
    ghost shows = { λ s p. shows_registers s.device p };

    ghost at = { λ s c k v. unregistered c k s.device v };

    ghost below = { λ s c k v. hidden_below c s.device k v };

    fn take(self, room: &mut Room, place: Address) -> bool {
        room.hide_registers(place, self.device)
    }

    fn present(self, room: &Room, who: u32, first: u32) -> bool {
        room.any_registers(who, first)
    }

    ghost laws = { λ s. registers_taken s.device };
}

// The IOMMU has forgotten d, whose registers are shown nowhere: it is shut.
fn shut(forgotten: Forgotten, room: &mut Room, who: u32, d: u32)
    requires forgotten { forgotten.device ≡ d }
    requires program { who < 32 }
    requires device { d < 32 }
    requires owner { owner_is who (device_of room.old.words.now d) ≡ true }
    requires hidden { (a b : ℕ) → place_of room.old.words.now a b ≢ Registers d }
    ensures { Becomes room.old (shut_device d (says room.old)) room.new }
{
    room.shut_device(who, d);
    forgotten.spend(d);
}

// Asks the IOMMU once to forget d, whose registers are shown nowhere: if it has, d is shut, and else closing. Says which.
pub fn forget<M: Machine>(w: &mut M, room: &mut Room, who: u32, d: u32) -> bool
    requires soon { 0 < (M.hw w.old).left }
    requires program { who < 32 }
    requires device { d < 32 }
    requires there { d < (M.hw w.old).devices }
    requires owner { owner_is who (device_of room.old.words.now d) ≡ true }
    requires hidden { (a b : ℕ) → place_of room.old.words.now a b ≢ Registers d }
    ensures drained { Drains d (M.hw w.old) (M.seen w.old) result (M.hw w.new) (M.seen w.new) }
    ensures asked { Asked1 (M.hw w.old) (M.hw w.new) }
    ensures room { Becomes room.old (closed_as result who d (says room.old)) room.new }
{
    match Forgotten::ask(w, d) {
        Some(forgotten) => {
            shut(forgotten, room, who, d);
            true
        }
        None => {
            room.begin_closing(who, d);
            false
        }
    }
}

// d leaves frame 0, so that the IOMMU, once it has forgotten d, learns nothing of it again; its registers are hidden, and it is
// asked once to be forgotten. It takes effect when the IOMMU has answered.
pub fn close<M: Machine>(w: &mut M, room: &mut Room, who: u32, d: u32) -> Result<Answer, Refusal>
    requires soon { 2048 ≤ (M.hw w.old).left }
    requires begins { BeginsIn room.old who (Call.Close d) (M.hw w.old) (M.seen w.old) }
    ensures told { KeepsIn room.old room.new Quiet (M.hw w.new) (Told who (Call.Close d) (answer_of result) ∷ M.seen w.new) }
    ensures accepted { NeverNo result }
    ensures refused { IfRefused result ((room.new ≡ room.old) × (M.hw w.new ≡ M.hw w.old) × (M.seen w.new ≡ M.seen w.old)) }
{
    plan_close(room, w.devices(), who, d)?;
    write(w, DEVICE_TABLE, d, 0);
    unmap_each(w, room, who, RegistersOf { device: d });
    if forget(w, room, who, d) {
        Ok(Answer::Done)
    } else {
        Ok(Answer::Later)
    }
}
