// An idle frame in hand: it is made noughts, and then becomes something, which takes it apart. It cannot be copied, and be let
// go only as frame 0, so no frame is lost or given twice on any way out of a call.
ghost use Rattle.std.specs.Prelude.{◌≡◌, ℕ, ◌<◌, ◌≤◌, false, MatchResult, ◌≢◌};
ghost use Rattle.ledger.specs.declared.Use.TheVariants.{Idle};
ghost use Rattle.ledger.specs.declared.Place.TheVariants.{Nothing};
ghost use Rattle.ledger.specs.declared.Device.TheVariants.{Shut};
ghost use Rattle.ledger.specs.Room.{use_of, place_of, device_of, low_of};
ghost use Rattle.ledger.specs.Changes.{new_page, opened_by, lower_at};
ghost use Rattle.ledger.specs.Rooms.{says, Becomes};
ghost use Rattle.ledger.specs.Uses.{is_shut};
ghost use Rattle.ledger.specs.Searches.{NextIdle};
ghost use Rattle.house.specs.Operations.{Cleared};

use crate::Machine;
use crate::refusals::Refusal;
use ledger::searches::find_idle;
use ledger::{Address, Room, Slot};

pub struct Taken {
    frame: u32,
}

// Only frame 0 could be let go, and that is never idle. A drop of this kind, and not no Drop: so it is a proof that fails where a
// frame would be lost.
impl Drop for Taken {
    fn drop(self)
        requires { self.frame ≡ 0 }
    {
        let Taken { frame: _ } = self;
    }
}

impl Taken {
    // An idle frame: the first from `from` on, if one is idle there.
    pub fn take(room: &Room, from: u32) -> Result<Taken, Refusal>
        ensures { MatchResult result (λ t. NextIdle room.now.words.now room.now.frames from t.frame) (λ e. (e ≡ Refusal.NoFrame) × ((f : ℕ) → f < room.now.frames → use_of room.now.words.now f ≢ Idle)) }
    {
        match find_idle(room.words(), room.frames(), from) {
            Some(frame) => Ok(Taken { frame }),
            None => Err(Refusal::NoFrame),
        }
    }

    // Makes it noughts.
    pub fn clear<M: Machine>(&self, w: &mut M)
        requires soon { 512 ≤ (M.hw w.old).left }
        requires frame { self.now.frame < (M.hw w.old).frames }
        ensures { Cleared self.now.frame (M.hw w.old) (M.seen w.old) 512 (M.hw w.new) (M.seen w.new) }
    {
        clear(w, self.frame);
    }

    // It becomes the page at a place where nothing was shown.
    pub fn into_page(self, room: &mut Room, at: Address) -> u32
        requires place { place_of room.old.words.now at.who at.v ≡ Nothing }
        requires within { self.frame < room.old.frames }
        requires idle { use_of room.old.words.now self.frame ≡ Idle }
        ensures frame { result ≡ self.frame }
        ensures room { Becomes room.old (new_page at.who at.v self.frame (says room.old)) room.new }
    {
        let Taken { frame } = self;
        room.new_page(at, frame);
        frame
    }

    // It becomes the upper table of d, which was shut and which `who` has open now.
    pub fn into_upper_table(self, room: &mut Room, who: u32, d: u32) -> u32
        requires program { who < 32 }
        requires device { d < 32 }
        requires shut { device_of room.old.words.now d ≡ Shut }
        requires within { self.frame < room.old.frames }
        requires idle { use_of room.old.words.now self.frame ≡ Idle }
        ensures frame { result ≡ self.frame }
        ensures room { Becomes room.old (opened_by who d self.frame (says room.old)) room.new }
    {
        let Taken { frame } = self;
        room.open_device(who, d, frame);
        frame
    }

    // It becomes the lower table of a device at a slot that had none.
    pub fn into_lower_table(self, room: &mut Room, at: Slot) -> u32
        requires live { is_shut (device_of room.old.words.now at.device) ≡ false }
        requires missing { low_of room.old.words.now at.device at.index ≡ 0 }
        requires within { self.frame < room.old.frames }
        requires idle { use_of room.old.words.now self.frame ≡ Idle }
        ensures frame { result ≡ self.frame }
        ensures room { Becomes room.old (lower_at at.device at.index self.frame (says room.old)) room.new }
    {
        let Taken { frame } = self;
        room.add_lower(at, frame);
        frame
    }
}

// Writes 0 into every word of a frame.
pub fn clear<M: Machine>(w: &mut M, frame: u32)
    requires soon { 512 ≤ (M.hw w.old).left }
    requires frame { frame < (M.hw w.old).frames }
    ensures { Cleared frame (M.hw w.old) (M.seen w.old) 512 (M.hw w.new) (M.seen w.new) }
{
    for k in 0..512 {
        w.put(frame, k, 0);
    }
}
