// What came of a script.
ghost use Rattle.std.specs.Prelude.{◌≡◌, if◌then◌else◌};

use crate::life::Life;

// How many of its lines were read, how many events noted, and whether another machine is wanted: 1 if so.
#[repr(C)]
#[derive(Clone, Copy, PartialEq, Eq, Debug, Default)]
pub struct Played {
    pub lines: u64,
    pub events: u64,
    pub again: u32,
}

impl Played {
    pub fn new(lines: usize, life: Life) -> Played
        ensures lines { result.lines ≡ lines }
        ensures events { result.events ≡ life.events }
        ensures again { result.again ≡ (if life.again then 1 else 0) }
    {
        Played {
            lines: lines as u64,
            events: life.events as u64,
            again: u32::from(life.again),
        }
    }
}
