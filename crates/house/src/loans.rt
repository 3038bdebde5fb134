// lend: a page of a program is mapped for a device.
ghost use Rattle.std.specs.Prelude.{◌≡◌, ℕ, suc, ◌+◌, ◌*◌, ◌/◌, ◌<◌, ◌≤◌, ◌∷◌, MatchResult, ◌≢◌};
ghost use Rattle.ledger.specs.declared.Use.TheVariants.{Idle};
ghost use Rattle.ledger.specs.Room.{use_of, low_of};
ghost use Rattle.ledger.specs.Rooms.{says};
ghost use Rattle.house.specs.Event.{Told};
ghost use Rattle.house.specs.Lends.{Lendable, Tabled};
ghost use Rattle.house.specs.Meaning.{Quiet};
ghost use Rattle.house.specs.Refusals.{answer_of, IfRefused, NeverNo, LendRefused};
ghost use Rattle.house.specs.Serving.{BeginsIn, KeepsIn};
ghost use Rattle.house.specs.Sound.{entry_of};

use crate::frames::Taken;
use crate::operations::write;
use crate::refusals::{Refusal, at_home, open_by, own_page, untaken};
use crate::{Answer, Call, Machine};
use ledger::devices::top_at;
use ledger::slots::low_at;
use ledger::{Address, Loan, Mapping, Room};

// The lower table for a page of a device: the frame that it is in, or an idle frame that is to become it. No Result: that it is
// missing is no failure.
enum LowerTable {
    There(u32),
    Missing(Taken),
}

struct Plan {
    frame: u32,
    table: LowerTable,
}

// A place of an address space, a device, and a page of a device's own address space.
fn in_range(v: u32, devices: u32, d: u32, p: u32) -> Result<(), Refusal>
    ensures { MatchResult result (λ _. (v < 1024) × (d < devices) × (p < 262144)) (λ e. (e ≡ Refusal.OutOfRange) × (v < 1024 → d < devices → p < 262144 → ⊥)) }
{
    Refusal::OutOfRange.unless(v < 1024 && d < devices && p < 262144)
}

// The frame of a page that may be lent, or why it may not.
fn lendable(room: &Room, devices: u32, who: u32, v: u32, to: Mapping) -> Result<u32, Refusal>
    requires program { who < 32 }
    requires devices { devices ≤ 32 }
    ensures { MatchResult result (λ f. Lendable (says room.now) devices who v f to.device to.page) (λ e. LendRefused (says room.now) room.now.frames devices who v to.device to.page e) }
{
    in_range(v, devices, to.device, to.page)?;
    let from = Address { who, v };
    let f = own_page(room, from)?;
    untaken(room, to.device, to.page)?;
    at_home(room, from, f)?;
    open_by(room, who, to.device)?;
    Ok(f)
}

// The lower table for the page that a device is to see, or an idle frame where there is none.
fn lower_table(room: &Room, from: u32, to: Mapping) -> Result<LowerTable, Refusal>
    requires device { to.device < 32 }
    requires page { to.page < 262144 }
    ensures { MatchResult result (λ t. Tabled room.now.words.now room.now.frames to.device to.page t) (λ e. (e ≡ Refusal.NoFrame) × (low_of room.now.words.now to.device (to.page / 512) ≡ 0) × ((f : ℕ) → f < room.now.frames → (says room.now).used f ≢ Idle)) }
{
    match low_at(room.words(), to.slot()) {
        Some(table) => Ok(LowerTable::There(table)),
        None => Ok(LowerTable::Missing(Taken::take(room, from)?)),
    }
}

// What a lend finds in the room: the frame of the page and its lower table, or why it is refused.
fn plan_lend(
    room: &Room,
    devices: u32,
    from: u32,
    who: u32,
    v: u32,
    to: Mapping,
) -> Result<Plan, Refusal>
    requires program { who < 32 }
    requires devices { devices ≤ 32 }
    ensures { MatchResult result (λ x. Lendable (says room.now) devices who v x.frame to.device to.page × Tabled room.now.words.now room.now.frames to.device to.page x.table) (λ e. LendRefused (says room.now) room.now.frames devices who v to.device to.page e) }
{
    let frame = lendable(room, devices, who, v, to)?;
    let table = lower_table(room, from, to)?;
    Ok(Plan { frame, table })
}

// The entry of a lower table for a frame: the device may read there, and with `writes` write too.
fn entry(frame: u32, writes: bool) -> u64
    ensures { result ≡ entry_of frame writes }
{
    2 * frame as u64 + 1 + writes as u64
}

// The lower table is there: the entry goes into it, and with that the page is lent.
fn enter<M: Machine>(w: &mut M, room: &mut Room, from: Address, f: u32, table: u32, to: Mapping)
    requires soon { 2048 ≤ (M.hw w.old).left }
    requires begins { BeginsIn room.old from.who (Call.Lend from.v to.device to.page to.writes) (M.hw w.old) (M.seen w.old) }
    requires lendable { Lendable (says room.old) (M.hw w.old).devices from.who from.v f to.device to.page }
    requires table { low_of room.old.words.now to.device (to.page / 512) ≡ suc table }
    ensures { KeepsIn room.old room.new Quiet (M.hw w.new) (Told from.who (Call.Lend from.v to.device to.page to.writes) Answer.Done ∷ M.seen w.new) }
{
    write(w, table, to.word(), entry(f, to.writes));
    room.set_loan(from, f, Loan::Lent(to));
}

// There is none: an idle frame is made noughts, takes the entry, and only then is linked. With that the page is lent. Says where
// the next search for an idle frame may begin.
fn link<M: Machine>(
    w: &mut M,
    room: &mut Room,
    from: Address,
    f: u32,
    taken: Taken,
    to: Mapping,
) -> u32
    requires soon { 2048 ≤ (M.hw w.old).left }
    requires begins { BeginsIn room.old from.who (Call.Lend from.v to.device to.page to.writes) (M.hw w.old) (M.seen w.old) }
    requires lendable { Lendable (says room.old) (M.hw w.old).devices from.who from.v f to.device to.page }
    requires missing { low_of room.old.words.now to.device (to.page / 512) ≡ 0 }
    requires within { taken.frame < room.old.frames }
    requires idle { use_of room.old.words.now taken.frame ≡ Idle }
    ensures { KeepsIn room.old room.new Quiet (M.hw w.new) (Told from.who (Call.Lend from.v to.device to.page to.writes) Answer.Done ∷ M.seen w.new) }
{
    let upper = top_at(room.words(), to.device);
    let slot = to.slot();
    taken.clear(w);
    let table = taken.into_lower_table(room, slot);
    write(w, table, to.word(), entry(f, to.writes));
    write(w, upper, slot.index, table as u64 + 1);
    room.set_loan(from, f, Loan::Lent(to));
    table + 1
}

// One's page at v, which is home, is lent to a device that one has open. It takes effect with the last word that is written.
pub fn lend<M: Machine>(
    w: &mut M,
    room: &mut Room,
    next: &mut u32,
    who: u32,
    v: u32,
    to: Mapping,
) -> Result<Answer, Refusal>
    requires soon { 2048 ≤ (M.hw w.old).left }
    requires begins { BeginsIn room.old who (Call.Lend v to.device to.page to.writes) (M.hw w.old) (M.seen w.old) }
    ensures told { KeepsIn room.old room.new Quiet (M.hw w.new) (Told who (Call.Lend v to.device to.page to.writes) (answer_of result) ∷ M.seen w.new) }
    ensures accepted { NeverNo result }
    ensures refused { IfRefused result ((room.new ≡ room.old) × (M.hw w.new ≡ M.hw w.old) × (M.seen w.new ≡ M.seen w.old) × (next.new ≡ next.old)) }
{
    let devices = w.devices();
    let Plan { frame, table } = plan_lend(room, devices, *next, who, v, to)?;
    let from = Address { who, v };
    match table {
        LowerTable::There(t) => enter(w, room, from, frame, t, to),
        LowerTable::Missing(taken) => {
            *next = link(w, room, from, frame, taken, to);
        }
    }
    Ok(Answer::Done)
}
