// A machine as at the start.
ghost use Rattle.std.specs.Prelude.{◌≡◌, ℕ, ◌*◌, ◌/◌, ◌<◌, [], length, slice_index};
ghost use Rattle.house.specs.Machine.{AtStart};
ghost use Rattle.simulator.specs.Fit.{Fit};
ghost use Rattle.simulator.specs.Parts.{hw_of, seen_of};
ghost use Rattle.simulator.specs.View.{parts_of};

use super::Board;
use super::asks::ASKINGS;
use crate::devices::Device;
use crate::front::Front;
use crate::lent::Lent;
use crate::log::Log;
use crate::memory::Memory;
use crate::spaces::Spaces;

impl<'a> Board<'a> {
    pub fn new(lent: Lent<'a>, devices: &'a [Device]) -> Board<'a>
        requires { Fit (length lent.memory.now) (length lent.spaces.now) devices.now (length lent.log.now) }
        ensures hw { AtStart (hw_of (parts_of result)) }
        ensures frames { (parts_of result).frames ≡ length lent.entry.memory.now / 512 }
        ensures rows { (parts_of result).devices ≡ devices.now }
        ensures unseeded { result.dice ≡ None }
        ensures willing { result.refusals ≡ 0 }
        ensures filled { (k : ℕ) → k < 512 * (parts_of result).frames → 0 < slice_index (parts_of result).mem k }
        ensures seen { seen_of (parts_of result) ≡ [] }
    {
        let Lent {
            memory,
            spaces,
            ups,
            mids,
            leaves,
            flying,
            log,
        } = lent;
        Board {
            memory: Memory::new(memory),
            spaces: Spaces::new(spaces),
            devices,
            live: false,
            ups: Front::new(ups),
            mids: Front::new(mids),
            leaves: Front::new(leaves),
            flying: Front::new(flying),
            left: ASKINGS,
            log: Log::new(log),
            dice: None,
            refusals: 0,
        }
    }
}
