// A script of rows.
ghost use Rattle.std.specs.Prelude.{◌≡◌, ◌<◌, ◌≤◌, length};
ghost use Rattle.tevmalo.specs.Reasons.{Reason};

use crate::lengths::Lengths;
use crate::life::live;
use crate::played::Played;
use crate::reasons::reason;
use crate::rows::Rows;
use crate::said::Said;
use simulator::cached::{LowerTable, PageEntry, UpperTable};
use simulator::devices::Device;
use simulator::row::Row;

// The same for a script whose lines are rows already.
#[unsafe(no_mangle)]
pub extern "C" fn tevmalo_run(
    devices: &[Device],
    memory: &mut [u64],
    room: &mut [u64],
    uppers: &mut [UpperTable],
    lowers: &mut [LowerTable],
    pages: &mut [PageEntry],
    accesses: &mut [PageEntry],
    log: &mut [Row],
    script: &[Row],
    said: &mut [Said],
    played: &mut Played,
) -> u32
    ensures reason { Reason (record { memory = length memory.old; room = length room.old; log = length log.old; said = length said.old; lines = length script.now }) devices.now result }
    ensures refused { 0 < result → (memory.new ≡ memory.old) × (room.new ≡ room.old) × (uppers.new ≡ uppers.old) × (lowers.new ≡ lowers.old) × (pages.new ≡ pages.old) × (accesses.new ≡ accesses.old) × (log.new ≡ log.old) × (said.new ≡ said.old) × (played.new ≡ played.old) }
    ensures lines { result ≡ 0 → played.new.lines ≤ length said.new }
    ensures events { result ≡ 0 → played.new.events ≤ length log.new }
{
    let lengths = Lengths {
        memory: memory.len(),
        room: room.len(),
        log: log.len(),
        said: said.len(),
        lines: script.len(),
    };
    let why = reason(devices, lengths);
    if why > 0 {
        return why;
    }
    let mut script = Rows::new(script, said);
    let life = live(
        devices,
        memory,
        room,
        uppers,
        lowers,
        pages,
        accesses,
        log,
        &mut script,
    );
    // The script might have been exchanged for another, as far as its type says: so the bound is kept here.
    *played = Played::new(script.read().min(lengths.said), life);
    0
}
