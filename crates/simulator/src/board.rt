// The machine: memory, spaces, what the unit keeps, and all that happened, each in lent memory.
ghost use Rattle.std.specs.Prelude.{◌+◌, ◌≤◌, map, length};
ghost use Rattle.simulator.specs.Notes.{event_of, owed};
ghost use Rattle.simulator.specs.Rows.{events_of};
ghost use Rattle.simulator.specs.Store.{PagesBelow};

use crate::cached::{LowerTable, PageEntry, UpperTable};
use crate::devices::Device;
use crate::dice::Dice;
use crate::front::Front;
use crate::log::Log;
use crate::memory::Memory;
use crate::spaces::Spaces;

mod accesses;
mod asked;
mod asks;
pub mod census;
mod drains;
mod lines;
mod made;
mod programs;
mod tricks;
mod walks;

// One event is owed for each thing that may still be asked of it, and one for the answer while a call is served.
#[derive(Drop)]
pub struct Board<'a> {
    memory: Memory<'a>,
    spaces: Spaces<'a>,
    devices: &'a [Device],
    live: bool,
    ups: Front<'a, UpperTable>,
    mids: Front<'a, LowerTable>,
    leaves: Front<'a, PageEntry>,
    flying: Front<'a, PageEntry>,
    left: u64,
    log: Log<'a>,
    // without a seed nothing happens by itself
    dice: Option<Dice>,
    refusals: u64,
    ghost few: { length devices.now ≤ 32 },
    ghost shown: { PagesBelow memory.frames spaces.places.now },
    ghost room: { log.rows.count + left + owed (map event_of (events_of log)) ≤ length log.rows.all.now },
}
