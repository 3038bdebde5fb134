// open and regs: devices that a program drives by itself.
ghost use Rattle.std.specs.Prelude.{◌≡◌, ◌<◌, ◌≤◌, ◌∷◌, MatchResult, ◌≢◌};
ghost use Rattle.ledger.specs.declared.Use.TheVariants.{Idle};
ghost use Rattle.ledger.specs.declared.Place.TheVariants.{Nothing};
ghost use Rattle.ledger.specs.declared.Device.TheVariants.{Shut, Opened};
ghost use Rattle.ledger.specs.Room.{use_of, place_of, device_of};
ghost use Rattle.ledger.specs.Rooms.{says};
ghost use Rattle.house.specs.Event.{Told};
ghost use Rattle.house.specs.Meaning.{Quiet};
ghost use Rattle.house.specs.Refusals.{answer_of, IfRefused, NeverNo, GroupHeld, GroupFree, OpenRefused, RegsRefused};
ghost use Rattle.house.specs.Serving.{BeginsIn, KeepsIn};

use crate::frames::Taken;
use crate::refusals::{Refusal, device, open_by, place, shut, vacant};
use crate::{Answer, Call, DEVICE_TABLE, Machine};
use ledger::searches::held_by_other;
use ledger::{Address, Room};

// `who` is the program that is allowed to open a device.
fn driven_by(driver: u32, who: u32) -> Result<(), Refusal>
    ensures { MatchResult result (λ _. driver ≡ who) (λ e. (e ≡ Refusal.NotYours) × (driver ≢ who)) }
{
    Refusal::NotYours.unless(driver == who)
}

// No other program than `who` holds a device of d's group. The loop is no `any`: its closure would need a contract of its own, and
// the proof six times the lines.
fn group_is_free<M: Machine>(w: &M, room: &Room, who: u32, d: u32) -> Result<(), Refusal>
    requires { (M.hw w.now).devices ≤ 32 }
    ensures { MatchResult result (λ _. GroupFree (device_of room.now.words.now) (M.hw w.now).devices (M.hw w.now).group who d) (λ e. (e ≡ Refusal.Held) × GroupHeld (device_of room.now.words.now) (M.hw w.now).devices (M.hw w.now).group who d) }
{
    let group = w.group(d);
    for e in 0..w.devices() {
        if w.group(e) == group && held_by_other(room.words(), who, e) {
            return Err(Refusal::Held);
        }
    }
    Ok(())
}

// What an open finds in the room: an idle frame for the upper table, or why it is refused.
fn plan_open<M: Machine>(w: &M, room: &Room, from: u32, who: u32, d: u32) -> Result<Taken, Refusal>
    requires { (M.hw w.now).devices ≤ 32 }
    ensures { MatchResult result (λ t. (d < (M.hw w.now).devices) × ((M.hw w.now).driver d ≡ who) × (device_of room.now.words.now d ≡ Shut) × GroupFree (device_of room.now.words.now) (M.hw w.now).devices (M.hw w.now).group who d × (t.frame < room.now.frames) × (use_of room.now.words.now t.frame ≡ Idle)) (λ e. OpenRefused (says room.now) room.now.frames (M.hw w.now).devices (M.hw w.now).group (M.hw w.now).driver who d e) }
{
    device(w.devices(), d)?;
    driven_by(w.driver(d), who)?;
    shut(room, d)?;
    group_is_free(w, room, who, d)?;
    Taken::take(room, from)
}

// A device that was shut is open, with an upper table of noughts. It takes effect when frame 0 has that table.
pub fn open_device<M: Machine>(
    w: &mut M,
    room: &mut Room,
    next: &mut u32,
    who: u32,
    d: u32,
) -> Result<Answer, Refusal>
    requires soon { 2048 ≤ (M.hw w.old).left }
    requires begins { BeginsIn room.old who (Call.Open d) (M.hw w.old) (M.seen w.old) }
    ensures told { KeepsIn room.old room.new Quiet (M.hw w.new) (Told who (Call.Open d) (answer_of result) ∷ M.seen w.new) }
    ensures accepted { NeverNo result }
    ensures refused { IfRefused result ((room.new ≡ room.old) × (M.hw w.new ≡ M.hw w.old) × (M.seen w.new ≡ M.seen w.old) × (next.new ≡ next.old)) }
{
    let taken = plan_open(w, room, *next, who, d)?;
    taken.clear(w);
    let f = taken.into_upper_table(room, who, d);
    w.put(DEVICE_TABLE, d, f as u64 + 1);
    *next = f + 1;
    Ok(Answer::Done)
}

// What a regs finds in the room, or why it is refused.
fn plan_registers(room: &Room, devices: u32, who: u32, d: u32, v: u32) -> Result<(), Refusal>
    requires devices { devices ≤ 32 }
    requires program { who < 32 }
    ensures { MatchResult result (λ _. (d < devices) × (v < 1024) × (place_of room.now.words.now who v ≡ Nothing) × (device_of room.now.words.now d ≡ Opened who)) (λ e. RegsRefused (place_of room.now.words.now) (device_of room.now.words.now) devices who d v e) }
{
    device(devices, d)?;
    place(v)?;
    vacant(room, Address { who, v })?;
    open_by(room, who, d)
}

// The place shows the registers of a device that one has open. It takes effect when it does.
pub fn map_registers<M: Machine>(
    w: &mut M,
    room: &mut Room,
    who: u32,
    d: u32,
    v: u32,
) -> Result<Answer, Refusal>
    requires soon { 2048 ≤ (M.hw w.old).left }
    requires begins { BeginsIn room.old who (Call.Regs d v) (M.hw w.old) (M.seen w.old) }
    ensures told { KeepsIn room.old room.new Quiet (M.hw w.new) (Told who (Call.Regs d v) (answer_of result) ∷ M.seen w.new) }
    ensures accepted { NeverNo result }
    ensures refused { IfRefused result ((room.new ≡ room.old) × (M.hw w.new ≡ M.hw w.old) × (M.seen w.new ≡ M.seen w.old)) }
{
    plan_registers(room, w.devices(), who, d, v)?;
    w.show_registers(who, v, d);
    room.show_registers(Address { who, v }, d);
    Ok(Answer::Done)
}
