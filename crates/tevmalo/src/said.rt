// What is said of a line, as a row of numbers.
ghost use Rattle.std.specs.Prelude.{◌≡◌};
ghost use Rattle.tevmalo.specs.Outcomes.{row, said_of};

use script::Outcome;

// Kind 0 is that nothing is said.
#[repr(C)]
#[derive(Clone, Copy, PartialEq, Eq, Debug, Default)]
pub struct Said {
    pub kind: u32,
    // why a call is refused
    pub reason: u32,
    // the word that was found, or the number of the line that is none
    pub x: u64,
}

impl From<Outcome> for Said {
    ghost from_gives = { λ outcome said. said ≡ said_of outcome };

    fn from(outcome: Outcome) -> Said {
        match outcome {
            Outcome::NotYet => Said::plain(0),
            Outcome::Done => Said::plain(1),
            Outcome::Later => Said::plain(2),
            Outcome::No(reason) => Said {
                kind: 3,
                reason,
                x: 0,
            },
            Outcome::Loaded(x) => Said::with(4, x),
            Outcome::Stored => Said::plain(5),
            Outcome::Fault => Said::plain(6),
            Outcome::Poked => Said::plain(7),
            Outcome::Took(x) => Said::with(8, x),
            Outcome::Put => Said::plain(9),
            Outcome::Miss => Said::plain(10),
            Outcome::Kept => Said::plain(11),
            Outcome::Nothing => Said::plain(12),
            Outcome::Over => Said::plain(13),
            Outcome::BadLine(number) => Said::with(14, number),
        }
    }
}

impl Said {
    fn plain(kind: u32) -> Said
        ensures { result ≡ row kind 0 0 }
    {
        Said::with(kind, 0)
    }

    fn with(kind: u32, x: u64) -> Said
        ensures { result ≡ row kind 0 x }
    {
        Said { kind, reason: 0, x }
    }
}
