// Single operations of the machine, each with what it leaves of the count of operations and of the machine's shape.
// Frames, words and devices are numbers here, with their bounds as clauses: so the trait `Machine` takes them.
ghost use Rattle.std.specs.Prelude.{ℕ, ◌<◌};
ghost use Rattle.house.specs.Machine.{Steps, Nothing, counted, with_mem, put, shows};
ghost use Rattle.house.specs.Operations.{Asked1};

use crate::Machine;

// Writes one word of a frame.
pub fn write<M: Machine>(w: &mut M, frame: u32, word: u32, x: u64)
    requires soon { 0 < (M.hw w.old).left }
    requires frame { frame < (M.hw w.old).frames }
    requires word { word < 512 }
    ensures steps { Steps (counted (with_mem (put frame word x (M.hw w.old).mem) (M.hw w.old))) (M.seen w.old) (M.hw w.new) (M.seen w.new) }
    ensures asked { Asked1 (M.hw w.old) (M.hw w.new) }
{
    w.put(frame, word, x);
}

// Unmaps a place of a program's address space.
pub fn hide<M: Machine>(w: &mut M, who: u32, v: u32)
    requires soon { 0 < (M.hw w.old).left }
    requires program { who < 32 }
    requires place { v < 1024 }
    ensures steps { Steps (counted (shows who v Nothing (M.hw w.old))) (M.seen w.old) (M.hw w.new) (M.seen w.new) }
    ensures asked { Asked1 (M.hw w.old) (M.hw w.new) }
{
    w.hide(who, v);
}
