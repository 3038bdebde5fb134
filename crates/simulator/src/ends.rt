// A script has two ends: one gives lines, the other takes what came of them.
ghost use Rattle.script.specs.declared.outcomes.Outcome.{Outcome as Said};

use script::{Line, Outcome};

// A line of text that is no line of a script, by its number.
#[derive(Clone, Copy, PartialEq, Eq, Debug)]
pub struct BadLine(pub u64);

pub trait Script {
    // what handing over an outcome does
    ghost handed: { Self → Said → Self → Type 0 };

    // The next line, until the script is at its end.
    fn line(&mut self) -> Option<Result<Line, BadLine>>;

    fn outcome(&mut self, o: Outcome)
        ensures { handed self.old o self.new };
}
