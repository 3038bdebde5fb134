// Plays a script from standard input on machines in memory, and prints what came of each line.
#![tactic(auto)]

mod console;

use console::Console;
use script::Lines;
use simulator::cached::{LowerTable, PageEntry, UpperTable};
use simulator::devices::Device;
use simulator::lent::Lent;
use simulator::plays::play_on;
use simulator::row::Row;
use simulator::spaces::View;
use std::io;
use std::io::{BufReader, BufWriter};

const FRAMES: usize = 64;

// Program 1 may open devices 0 and 1, which are in one group, program 2 device 2. Device 3 is in a group of its own, and program 31's.
const DEVICES: [Device; 4] = [
    Device {
        group: 0,
        driver: 1,
    },
    Device {
        group: 0,
        driver: 1,
    },
    Device {
        group: 1,
        driver: 2,
    },
    Device {
        group: 2,
        driver: 31,
    },
];

// How many events a machine has room for.
const EVENTS: usize = 50_000;

fn main(rt: HostRuntime) -> io::Result<()> {
    // Each array is made here, since it has to lie with who lends it.
    let mut memory = [0; 512 * FRAMES];
    let mut spaces = [View::Hidden; 32 * 1024];
    let mut ups = [UpperTable::default(); FRAMES];
    let mut mids = [LowerTable::default(); FRAMES];
    let mut leaves = [PageEntry::default(); FRAMES];
    let mut flying = [PageEntry::default(); FRAMES];
    let mut log = [Row::default(); EVENTS];
    let mut room = [0; 65536 + 2 * FRAMES];
    let mut console = Console::new(
        Lines::new(BufReader::new(rt.alloc(), rt.stdin())?),
        BufWriter::new(rt.alloc(), rt.stdout())?,
    );
    // Counted: without a count a loop until the script ends needs a `Wait` bound, and no function here may have one.
    for _ in 0..u64::MAX {
        let lent = Lent {
            memory: &mut memory,
            spaces: &mut spaces,
            ups: &mut ups,
            mids: &mut mids,
            leaves: &mut leaves,
            flying: &mut flying,
            log: &mut log,
        };
        if !play_on(lent, &DEVICES, &mut room, &mut console)? {
            break;
        }
    }
    console.finish()
}
