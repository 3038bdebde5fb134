// A script that fills the log ends well, and another machine goes on.
ghost use Rattle.std.specs.Prelude.{◌≡◌, Some};

use script::{Line, Outcome};
use simulator::cached::{LowerTable, PageEntry, UpperTable};
use simulator::devices::Device;
use simulator::ends::{BadLine, Script};
use simulator::lent::Lent;
use simulator::plays::play_on;
use simulator::row::Row;
use simulator::spaces::View;
use std::test::Fail;

const DEVICES: [Device; 1] = [Device {
    group: 0,
    driver: 1,
}];

// So many loads, then `new`, then five more. `last` is what was handed over last.
#[derive(Drop)]
struct Loads {
    left: u32,
    faults: u32,
    overs: u32,
    last: Option<Outcome>,
}

impl Script for Loads {
    ghost handed = { λ s o t. t.last ≡ Some o };

    fn line(&mut self) -> Option<Result<Line, BadLine>> {
        self.left = self.left.checked_sub(1)?;
        if self.left == 5 {
            Some(Ok(Line::New))
        } else {
            Some(Ok(Line::Load {
                who: 0,
                v: 3,
                word: 9,
            }))
        }
    }

    fn outcome(&mut self, o: Outcome) {
        self.last = Some(o);
        match o {
            Outcome::Fault => self.faults = self.faults.saturating_add(1),
            Outcome::Over => self.overs = self.overs.saturating_add(1),
            _ => {}
        }
    }
}

#[test]
fn a_full_log_ends_well(rt: HostRuntime) -> Result<(), Fail> {
    // Each array is made here, since it has to lie with who lends it.
    let mut memory = [0; 32768];
    let mut spaces = [View::Hidden; 32768];
    let mut ups = [UpperTable::default(); 8];
    let mut mids = [LowerTable::default(); 8];
    let mut leaves = [PageEntry::default(); 8];
    let mut flying = [PageEntry::default(); 8];
    let mut log = [Row::default(); 2100];
    let mut room = [0; 65664];
    let mut loads = Loads {
        left: 86,
        faults: 0,
        overs: 0,
        last: None,
    };
    let lent = Lent {
        memory: &mut memory,
        spaces: &mut spaces,
        ups: &mut ups,
        mids: &mut mids,
        leaves: &mut leaves,
        flying: &mut flying,
        log: &mut log,
    };
    let again = play_on(lent, &DEVICES, &mut room, &mut loads)?;
    assert!(rt; again, "another machine is wanted");
    assert!(rt; loads.faults == 51, "51 events leave no room for a call");
    assert!(rt; loads.overs == 29, "each further line is answered so");
    let lent = Lent {
        memory: &mut memory,
        spaces: &mut spaces,
        ups: &mut ups,
        mids: &mut mids,
        leaves: &mut leaves,
        flying: &mut flying,
        log: &mut log,
    };
    let again = play_on(lent, &DEVICES, &mut room, &mut loads)?;
    assert!(rt; !again, "the script is at its end");
    assert!(rt; loads.faults == 56, "the next machine has an empty log");
    Ok(())
}
