// A sweep over a program's places: something is taken from each in the room, and each that showed it is unmapped.
ghost use Rattle.std.specs.Prelude.{◌≡◌, ℕ, ◌+◌, ◌<◌, ◌≤◌, Bool, false};
ghost use Rattle.ledger.specs.declared.Place.{Place};
ghost use Rattle.ledger.specs.Room.{place_of};
ghost use Rattle.ledger.specs.View.{View};
ghost use Rattle.ledger.specs.Rooms.{says, Becomes};
ghost use Rattle.house.specs.Sweeps.{SweepLaws};
ghost use Rattle.house.specs.Unmapping.{Hid, count};

use crate::Machine;
use crate::operations::hide;
use ledger::{Address, Room};

// What a sweep takes from a place.
pub trait Sweep {
    // what is taken: a place that shows it is unmapped
    ghost shows: { Self → Place → Bool };

    // what the room says once it is taken from place v of a program, and from those below v
    ghost at: { Self → ℕ → ℕ → View → View };

    ghost below: { Self → ℕ → ℕ → View → View };

    fn take(self, room: &mut Room, place: Address) -> bool
        ensures answer { result ≡ shows self (place_of room.old.words.now place.who place.v) }
        ensures room { Becomes room.old (at self place.who place.v (says room.old)) room.new };

    // Whether one of the 64 places from `first` on may show it.
    fn present(self, room: &Room, who: u32, first: u32) -> bool
        requires program { who < 32 }
        requires places { first + 64 ≤ 1024 }
        ensures { result ≡ false → (k : ℕ) → k < 64 → shows self (place_of room.now.words.now who (first + k)) ≡ false };

    ghost laws: { (s : Self) → SweepLaws (shows s) (at s) (below s) };
}

// Unmaps each place of a program that shows what the sweep takes, upwards. Where 64 places show nothing of the kind, they are passed
// over at once.
pub fn unmap_each<M: Machine, S: Sweep + Copy>(w: &mut M, room: &mut Room, who: u32, s: S)
    requires soon { count (λ v. S.shows s (place_of room.old.words.now who v)) 1024 ≤ (M.hw w.old).left }
    requires program { who < 32 }
    ensures hid { Hid who (λ v. S.shows s (place_of room.old.words.now who v)) (M.hw w.old) (M.seen w.old) 1024 (M.hw w.new) (M.seen w.new) }
    ensures room { Becomes room.old (S.below s who 1024 (says room.old)) room.new }
{
    for block in 0..16 {
        let first = 64 * block;
        if s.present(room, who, first) {
            for v in first..first + 64 {
                if s.take(room, Address { who, v }) {
                    hide(w, who, v);
                }
            }
        }
    }
}
