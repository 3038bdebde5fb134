// That the IOMMU has forgotten a device: a value that is made where a drain says yes. It has no Drop, so it is spent in the same
// call, by what makes a page home or shuts the device.
ghost use Rattle.std.specs.Prelude.{◌≡◌, ℕ, ◌<◌, true, false, MatchOption};
ghost use Rattle.house.specs.Machine.{Drains};
ghost use Rattle.house.specs.Operations.{Asked1};

use crate::Machine;

pub struct Forgotten {
    device: u32,
}

impl Forgotten {
    // Asks the IOMMU to forget device d, once; None if it says no.
    pub fn ask<M: Machine>(w: &mut M, d: u32) -> Option<Forgotten>
        requires soon { 0 < (M.hw w.old).left }
        requires device { d < (M.hw w.old).devices }
        ensures drained { MatchOption result (Drains d (M.hw w.old) (M.seen w.old) false (M.hw w.new) (M.seen w.new)) (λ t. (t.device ≡ d) × Drains d (M.hw w.old) (M.seen w.old) true (M.hw w.new) (M.seen w.new)) }
        ensures asked { Asked1 (M.hw w.old) (M.hw w.new) }
    {
        if w.drain(d) {
            Some(Forgotten { device: d })
        } else {
            None
        }
    }

    // What comes of it is done: it was for this device.
    pub fn spend(self, d: u32)
        requires { self.device ≡ d }
    {
        let Forgotten { device: _ } = self;
    }
}
