// Machines that play a script one after the other, each with the keeper.
ghost use Rattle.std.specs.Prelude.{◌≡◌, ◌+◌, ◌/◌, ◌<◌, ◌≤◌, ◌⊎◌, [], length, IfErr};
ghost use Rattle.house.specs.Machine.{AtStart};
ghost use Rattle.house.specs.Promise.{room_of};
ghost use Rattle.simulator.specs.Parts.{hw_of, seen_of};
ghost use Rattle.simulator.specs.View.{parts_of};
ghost use Rattle.simulator.specs.Fit.{Misfit};
ghost use Rattle.simulator.specs.declared.lent.Unfit.TheVariants.{Room};

use crate::board::Board;
use crate::devices::Device;
use crate::ends::{BadLine, Script};
use crate::lent::{Lent, Unfit, check};
use crate::replies::prints;
use crate::sim::{Ended, Sim};
use house::rounds;
use script::{Line, Outcome};

// All is over: each line that prints is answered so, until another machine is wanted; says whether one is.
// Counted: without a count a loop until the script ends needs a `Wait` bound, and no function here may have one.
fn play_over<S: Script>(script: &mut S) -> bool {
    for _ in 0..u64::MAX {
        match script.line() {
            Some(Ok(Line::New)) => return true,
            Some(Ok(line)) => {
                if prints(line) {
                    script.outcome(Outcome::Over);
                }
            }
            Some(Err(BadLine(k))) => script.outcome(Outcome::BadLine(k)),
            None => return false,
        }
    }
    false
}

// Plays a script on a machine as at the start, with the keeper, and says whether another machine is wanted.
pub fn play<S: Script>(board: &mut Board, room: &mut [u64], script: &mut S) -> bool
    requires starts { AtStart (hw_of (parts_of board.old)) }
    requires unseen { seen_of (parts_of board.old) ≡ [] }
    requires lent { room_of (parts_of board.old).frames ≤ length room.old }
{
    let mut sim = Sim {
        board,
        script: &mut *script,
        ended: None,
    };
    rounds(&mut sim, room, u64::MAX);
    match sim.ended {
        Some(Ended::New) => true,
        Some(Ended::Full) => play_over(script),
        Some(Ended::Script) | None => false,
    }
}

// The same on what is lent, if a machine can be made of it.
pub fn play_on<'a, S: Script>(
    lent: Lent<'a>,
    devices: &'a [Device],
    room: &mut [u64],
    script: &mut S,
) -> Result<bool, Unfit>
    ensures { IfErr result (λ e. Misfit e (length lent.entry.memory.now) (length lent.entry.spaces.now) devices.now (length lent.entry.log.now) ⊎ ((e ≡ Room) × (length room.entry.now < 65536 + length lent.entry.memory.now / 256))) }
{
    check(
        lent.memory.len(),
        lent.spaces.len(),
        devices,
        lent.log.len(),
    )?;
    if room.len() < 65536 + lent.memory.len() / 256 {
        return Err(Unfit::Room);
    }
    let mut board = Board::new(lent, devices);
    Ok(play(&mut board, room, script))
}
