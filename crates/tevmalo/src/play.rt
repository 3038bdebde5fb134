// A script of text.
ghost use Rattle.std.specs.Prelude.{◌≡◌, ◌+◌, ◌<◌, ◌≤◌, length, count_by, ◌==◌};
ghost use Rattle.tevmalo.specs.Reasons.{Reason};

use crate::lengths::Lengths;
use crate::life::live;
use crate::lines::line_feeds;
use crate::played::Played;
use crate::reasons::reason;
use crate::said::Said;
use crate::text::Text;
use simulator::cached::{LowerTable, PageEntry, UpperTable};
use simulator::devices::Device;
use simulator::row::Row;

// Plays a script of text on a machine as at the start, up to the script's end or the first `new`, which is read.
// 0, and then all that is lent as `&mut` may be written; or the number of the reason why not, and then nothing is.
#[unsafe(no_mangle)]
pub extern "C" fn tevmalo_play(
    devices: &[Device],
    memory: &mut [u64],
    room: &mut [u64],
    uppers: &mut [UpperTable],
    lowers: &mut [LowerTable],
    pages: &mut [PageEntry],
    accesses: &mut [PageEntry],
    log: &mut [Row],
    script: &[u8],
    said: &mut [Said],
    played: &mut Played,
) -> u32
    ensures reason { Reason (record { memory = length memory.old; room = length room.old; log = length log.old; said = length said.old; lines = count_by (λ b. b == 10) script.now + 1 }) devices.now result }
    ensures refused { 0 < result → (memory.new ≡ memory.old) × (room.new ≡ room.old) × (uppers.new ≡ uppers.old) × (lowers.new ≡ lowers.old) × (pages.new ≡ pages.old) × (accesses.new ≡ accesses.old) × (log.new ≡ log.old) × (said.new ≡ said.old) × (played.new ≡ played.old) }
    ensures lines { result ≡ 0 → played.new.lines ≤ length said.new }
    ensures events { result ≡ 0 → played.new.events ≤ length log.new }
{
    let lengths = Lengths {
        memory: memory.len(),
        room: room.len(),
        log: log.len(),
        said: said.len(),
        lines: line_feeds(script) + 1,
    };
    let why = reason(devices, lengths);
    if why > 0 {
        return why;
    }
    let mut script = Text::new(script, said);
    let life = live(
        devices,
        memory,
        room,
        uppers,
        lowers,
        pages,
        accesses,
        log,
        &mut script,
    );
    // The script might have been exchanged for another, as far as its type says: so the bound is kept here.
    *played = Played::new(script.read().min(lengths.said), life);
    0
}
