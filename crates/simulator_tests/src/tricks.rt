// Each trick that the IOMMU and devices may play is played, for a stated seed.
use script::Line;
use simulator::board::Board;
use simulator::board::census::Census;
use simulator::cached::{LowerTable, PageEntry, UpperTable};
use simulator::devices::Device;
use simulator::events::Event;
use simulator::lent::{Lent, check as fits};
use simulator::row::Row;
use simulator::spaces::View;
use std::test::Fail;

const DEVICES: [Device; 2] = [
    Device {
        group: 0,
        driver: 1,
    },
    Device {
        group: 0,
        driver: 1,
    },
];

const SEED: u64 = 7;

// How often each happened.
#[derive(Clone, Copy, Default)]
struct Counts {
    learnt: [u32; 3],
    forgotten: [u32; 3],
    begun: u32,
    given_up: u32,
    read: u32,
    written: u32,
    missed: u32,
}

fn more(n: u32, one: bool) -> u32 {
    n.saturating_add(u32::from(one))
}

impl Counts {
    // What one trick changed.
    fn count(&mut self, before: Census, after: Census, latest: Option<Event>) {
        let [up, mid, leaf] = self.learnt;
        self.learnt = [
            more(up, after.uppers > before.uppers),
            more(mid, after.lowers > before.lowers),
            more(leaf, after.pages > before.pages),
        ];
        let [up, mid, leaf] = self.forgotten;
        self.forgotten = [
            more(up, after.uppers < before.uppers),
            more(mid, after.lowers < before.lowers),
            more(leaf, after.pages < before.pages),
        ];
        self.begun = more(self.begun, after.accesses > before.accesses);
        self.given_up = more(self.given_up, after.accesses < before.accesses);
        if after.events > before.events {
            self.read = more(self.read, matches!(latest, Some(Event::Took { .. })));
            self.written = more(self.written, matches!(latest, Some(Event::Put { .. })));
            self.missed = more(self.missed, matches!(latest, Some(Event::Missed { .. })));
        }
    }
}

// The words that memory starts with look like tables, so that everything is there to be found.
#[test]
fn each_trick_is_played(rt: HostRuntime) -> Result<(), Fail> {
    // Each array is made here, since it has to lie with who lends it.
    let mut memory = [0; 32768];
    let mut spaces = [View::Hidden; 32768];
    let mut ups = [UpperTable::default(); 8];
    let mut mids = [LowerTable::default(); 8];
    let mut leaves = [PageEntry::default(); 8];
    let mut flying = [PageEntry::default(); 8];
    let mut log = [Row::default(); 4096];
    fits(32768, 32768, &DEVICES, 4096)?;
    let mut board = Board::new(
        Lent {
            memory: &mut memory,
            spaces: &mut spaces,
            ups: &mut ups,
            mids: &mut mids,
            leaves: &mut leaves,
            flying: &mut flying,
            log: &mut log,
        },
        &DEVICES,
    );
    board.start();
    let _ = board.answer(Line::Seed { s: SEED });
    let mut counts = Counts::default();
    for _ in 0..2000 {
        let before = board.census();
        board.trick();
        counts.count(before, board.census(), board.latest());
    }
    let [up, mid, leaf] = counts.learnt;
    assert!(rt; up > 0 && mid > 0 && leaf > 0, "learns at three levels");
    let [up, mid, leaf] = counts.forgotten;
    assert!(rt; up > 0 && mid > 0 && leaf > 0, "forgets at three levels");
    assert!(rt;
        counts.begun > 0 && counts.given_up > 0,
        "lets through, and gives up"
    );
    assert!(rt; counts.read > 0 && counts.written > 0, "reads, and writes");
    assert!(rt; counts.missed > 0, "misses");
    Ok(())
}
