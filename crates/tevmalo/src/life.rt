// One machine's life: from its start to the end of the script, or to where another machine is wanted.
ghost use Rattle.std.specs.Prelude.{◌≡◌, ◌+◌, ◌/◌, ◌≤◌, length};
ghost use Rattle.simulator.specs.Fit.{Fit};

use crate::reasons::SPACES;
use simulator::board::Board;
use simulator::cached::{LowerTable, PageEntry, UpperTable};
use simulator::devices::Device;
use simulator::ends::Script;
use simulator::lent::Lent;
use simulator::plays::play;
use simulator::row::Row;
use simulator::spaces::View;

// How many events were noted, and whether another machine is wanted.
#[derive(Clone, Copy, PartialEq, Eq, Debug)]
pub struct Life {
    pub events: usize,
    pub again: bool,
}

// Plays a script on a machine as at the start, made of what is lent.
pub fn live<S: Script>(
    devices: &[Device],
    memory: &mut [u64],
    room: &mut [u64],
    uppers: &mut [UpperTable],
    lowers: &mut [LowerTable],
    pages: &mut [PageEntry],
    accesses: &mut [PageEntry],
    log: &mut [Row],
    script: &mut S,
) -> Life
    requires fit { Fit (length memory.old) 32768 devices.now (length log.old) }
    requires room { 65536 + length memory.old / 256 ≤ length room.old }
    ensures { result.events ≤ length log.new }
{
    let most = log.len();
    let mut spaces = [View::Hidden; SPACES];
    let lent = Lent {
        memory,
        spaces: &mut spaces,
        ups: uppers,
        mids: lowers,
        leaves: pages,
        flying: accesses,
        log,
    };
    let mut board = Board::new(lent, devices);
    let again = play(&mut board, room, script);
    // Whoever plays on the board might put another in its place, as far as its type says: so the bound is kept here.
    Life {
        events: board.census().events.min(most),
        again,
    }
}
