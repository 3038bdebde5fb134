// The keeper of an IOMMU: what it may ask of a machine, the world around it, and the loop that serves programs.
#![tactic(auto)]

ghost use Rattle.std.specs.Prelude.{◌≡◌, ℕ, ◌+◌, ◌<◌, ◌≤◌, T, List, [], ◌∷◌, length};
ghost use Rattle.house.specs.Event.{Event, Told};
ghost use Rattle.house.specs.Machine.{Hw, Frame, Registers, Nothing, AtStart, Steps, Drains, Comes, with_mem, counted, put, shows, started};
ghost use Rattle.house.specs.Meaning.{Explained, Quiet};
ghost use Rattle.house.specs.Promise.{can, room_of, start_of, OnePlace, LentByDriver, HomeIsQuiet, NewIsNoughts, CoreBuilt, AllBuilt};
ghost use Rattle.house.specs.Refusals.{answer_of, IfRefused, IfNo, NeverNo};
ghost use Rattle.house.specs.Serving.{Keeps, Begins, KeepsIn, BeginsIn};

mod closing;
mod devices;
mod drains;
mod ending;
mod frames;
mod loans;
mod operations;
mod pages;
mod recalls;
mod refusals;
pub mod simulation;
mod sweeps;
pub mod theorems;

use closing::close;
use devices::{map_registers, open_device};
use ending::end;
use frames::clear;
use ledger::{Mapping, Room};
use loans::lend;
use pages::{free, get, give};
use recalls::recall;
use refusals::Refusal;

// the frame in which the device table is
const DEVICE_TABLE: u32 = 0;

// What a program may ask for. v, at: places of an address space, below 1,024; d: a device; p: a page of a device's own address
// space, below 262,144; to, who: programs.
// Fixed from outside; a reader of scripts has a type of its own with the same variants.
#[derive(Clone, Copy)]
pub enum Call {
    Get {
        v: u32,
    },
    Free {
        v: u32,
    },
    Give {
        v: u32,
        to: u32,
        at: u32,
    },
    Open {
        d: u32,
    },
    Close {
        d: u32,
    },
    Regs {
        d: u32,
        v: u32,
    },
    Lend {
        v: u32,
        d: u32,
        p: u32,
        writes: bool,
    },
    Recall {
        v: u32,
    },
    End {
        who: u32,
    },
}

#[derive(Clone, Copy)]
pub enum Answer {
    Done,
    Later,
    No(u32),
}

// All that the keeper can reach: memory, what address spaces show, and the IOMMU. While one of these runs, devices and the IOMMU
// take any number of steps of their own.
pub trait Machine {
    ghost hw: { Self → Hw };

    ghost seen: { Self → List Event };

    fn frames(&self) -> u32
        ensures { result ≡ (hw self.now).frames };

    fn devices(&self) -> u32
        ensures { result ≡ (hw self.now).devices };

    fn group(&self, d: u32) -> u32
        ensures { result ≡ (hw self.now).group d };

    fn driver(&self, d: u32) -> u32
        ensures { result ≡ (hw self.now).driver d };

    // Writes one word of a frame.
    fn put(&mut self, frame: u32, word: u32, x: u64)
        requires { (0 < (hw self.old).left) × ((frame < (hw self.old).frames) × (word < 512)) }
        ensures { Steps (counted (with_mem (put frame word x (hw self.old).mem) (hw self.old))) (seen self.old) (hw self.new) (seen self.new) };
    // Reads one word of a frame.
    fn get(&mut self, frame: u32, word: u32) -> u64
        requires { (0 < (hw self.old).left) × ((frame < (hw self.old).frames) × (word < 512)) }
        ensures { (result ≡ (hw self.old).mem frame word) × (Steps (counted (hw self.old)) (seen self.old) (hw self.new) (seen self.new)) };

    // Maps a frame at a place of a program's address space.
    fn show(&mut self, who: u32, v: u32, frame: u32)
        requires { (0 < (hw self.old).left) × ((who < 32) × ((v < 1024) × (frame < (hw self.old).frames))) }
        ensures { Steps (counted (shows who v (Frame frame) (hw self.old))) (seen self.old) (hw self.new) (seen self.new) };
    // Maps the registers of a device there.
    fn show_registers(&mut self, who: u32, v: u32, d: u32)
        requires { (0 < (hw self.old).left) × ((who < 32) × ((v < 1024) × (d < (hw self.old).devices))) }
        ensures { Steps (counted (shows who v (Registers d) (hw self.old))) (seen self.old) (hw self.new) (seen self.new) };
    // Unmaps whatever is there.
    fn hide(&mut self, who: u32, v: u32)
        requires { (0 < (hw self.old).left) × ((who < 32) × (v < 1024)) }
        ensures { Steps (counted (shows who v Nothing (hw self.old))) (seen self.old) (hw self.new) (seen self.new) };

    // Starts the IOMMU: until now it lets nothing through, from now on what its tables say.
    fn start(&mut self)
        requires { 0 < (hw self.old).left }
        ensures { Steps (counted (started (hw self.old))) (seen self.old) (hw self.new) (seen self.new) };
    // Asks the IOMMU to drop all that it keeps of a device and to finish what is under way; says whether it has.
    fn drain(&mut self, d: u32) -> bool
        requires { (0 < (hw self.old).left) × (d < (hw self.old).devices) }
        ensures { Drains d (hw self.old) (seen self.old) result (hw self.new) (seen self.new) };
}

// What the keeper has no way to: the programs, and what they are told.
pub trait World: Machine {
    // Programs run until one of them asks for something, or until there is no more to come.
    fn next(&mut self) -> Option<(u32, Call)>
        ensures { Comes (Self.hw self.old) (Self.seen self.old) result (Self.hw self.new) (Self.seen self.new) };
    // Tells the answer. It may be told only if it and all that has happened before is explained: that is the promise.
    fn told(&mut self, who: u32, c: Call, a: Answer)
        requires { Explained can (start_of (Self.hw self.old)) (Told who c a ∷ Self.seen self.old) }
        ensures { (Self.hw self.new ≡ Self.hw self.old) × (Self.seen self.new ≡ Told who c a ∷ Self.seen self.old) };
}

// What the keeper has beside the room that is lent to it.
#[derive(Drop)]
pub struct Keeper {
    // where the next search for an idle frame begins
    next: u32,
}

// Sets up the room, makes the device table empty, and only then starts the IOMMU.
pub fn boot<M: Machine>(w: &mut M, room: &mut [u64]) -> Keeper
    requires soon { 2048 ≤ (M.hw w.old).left }
    requires starts { AtStart (M.hw w.old) }
    requires unseen { M.seen w.old ≡ [] }
    requires lent { room_of (M.hw w.old).frames ≤ length room.old }
    ensures { Keeps room.new Quiet (M.hw w.new) (M.seen w.new) }
{
    let _ = Room::set_up(room, w.frames());
    clear(w, DEVICE_TABLE);
    w.start();
    Keeper { next: 1 }
}

impl Keeper {
    // Serves one call of a program. A refused call asks the machine for nothing that counts, and leaves all as it was.
    #[tactic(auto, using(crate::proofs::Refused::answer_given))]
    pub fn serve<M: Machine>(&mut self, w: &mut M, room: &mut [u64], who: u32, c: Call) -> Answer
        requires soon { 2048 ≤ (M.hw w.old).left }
        requires begins { Begins room.old who c (M.hw w.old) (M.seen w.old) }
        ensures keeps { Keeps room.new Quiet (M.hw w.new) (Told who c result ∷ M.seen w.new) }
        ensures refused { IfNo result ((room.new ≡ room.old) × (M.hw w.new ≡ M.hw w.old) × (M.seen w.new ≡ M.seen w.old) × (self.new.next ≡ self.old.next)) }
    {
        let mut room = Room::open(room, w.frames());
        self.call(w, &mut room, who, c).unwrap_or_else(Answer::from)
    }

    // One row for each call. Each call says in full what all promise: clauses speak of the machine, the answer and what it was called
    // with, so neither a type nor a macro can hold them.
    fn call<M: Machine>(
        &mut self,
        w: &mut M,
        room: &mut Room,
        who: u32,
        c: Call,
    ) -> Result<Answer, Refusal>
        requires soon { 2048 ≤ (M.hw w.old).left }
        requires begins { BeginsIn room.old who c (M.hw w.old) (M.seen w.old) }
        ensures told { KeepsIn room.old room.new Quiet (M.hw w.new) (Told who c (answer_of result) ∷ M.seen w.new) }
        ensures refused { IfRefused result ((room.new ≡ room.old) × (M.hw w.new ≡ M.hw w.old) × (M.seen w.new ≡ M.seen w.old) × (self.new.next ≡ self.old.next)) }
        ensures accepted { NeverNo result }
    {
        match c {
            Call::Get { v } => get(w, room, &mut self.next, who, v),
            Call::Free { v } => free(w, room, who, v),
            Call::Give { v, to, at } => give(w, room, who, v, to, at),
            Call::Open { d } => open_device(w, room, &mut self.next, who, d),
            Call::Close { d } => close(w, room, who, d),
            Call::Regs { d, v } => map_registers(w, room, who, d, v),
            Call::Lend { v, d, p, writes } => {
                let to = Mapping {
                    device: d,
                    page: p,
                    writes,
                };
                lend(w, room, &mut self.next, who, v, to)
            }
            Call::Recall { v } => recall(w, room, who, v),
            Call::End { who: p } => end(w, room, who, p),
        }
    }
}

// The main theorem: whatever programs ask and do, and whatever devices and the IOMMU do, what is told is explained.
// Its text is fixed, so its count stays.
pub fn rounds<W: Machine + World>(w: &mut W, room: &mut [u64], turns: u64)
    requires starts { AtStart (W.hw w.old) }
    requires unseen { W.seen w.old ≡ [] }
    requires lent { room_of (W.hw w.old).frames ≤ length room.old }
{
    let mut k = boot(w, room);
    let mut t: u64 = 0;
    while t < turns {
        t += 1;
        match w.next() {
            Some((who, c)) => {
                let a = k.serve(w, room, who, c);
                w.told(who, c, a);
            }
            None => {
                return;
            }
        }
    }
}

// The keeper's own value is small; what is large is lent.
pub fn keeper_is_small() -> bool
    ensures { T result }
{
    std::mem::size_of::<Keeper>() <= 4096
}

// The core is built: get, free, open, close, lend, recall.
pub fn core_built() -> u8
    ensures { CoreBuilt }
{
    0
}

// Every call is built.
pub fn all_built() -> u8
    ensures { AllBuilt }
{
    0
}

// No two frames are at one place, or at one page of a device.
pub fn one_place() -> u8
    ensures { OnePlace }
{
    0
}

// A loan's owner has the device, and the devices of a group that are held have one holder.
pub fn lent_by_driver() -> u8
    ensures { LentByDriver }
{
    0
}

// A device touches only what is lent to it or leaving it there; a new page is noughts.
pub fn home_is_quiet() -> u8
    ensures { (HomeIsQuiet) × (NewIsNoughts) }
{
    0
}
