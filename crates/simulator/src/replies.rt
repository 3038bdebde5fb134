// What the machine replies to a line of a script.
ghost use Rattle.std.specs.Prelude.{◌≡◌};
ghost use Rattle.simulator.specs.Heard.{call_of, answered, prints_of};

use house::{Answer, Call};
use script::{Line, Outcome, Request};

#[derive(Clone, Copy)]
pub enum Reply {
    // what came of it
    Says(Outcome),
    // nothing is said of it
    Quiet,
    // a program asks the keeper
    Asks(u32, Call),
}

// A function, and no `From`: both types are of other crates.
pub fn call_of(r: Request) -> Call
    ensures { result ≡ call_of r }
{
    match r {
        Request::Get { v } => Call::Get { v },
        Request::Free { v } => Call::Free { v },
        Request::Give { v, to, at } => Call::Give { v, to, at },
        Request::Open { d } => Call::Open { d },
        Request::Close { d } => Call::Close { d },
        Request::Regs { d, v } => Call::Regs { d, v },
        Request::Lend { v, d, p, writes } => Call::Lend { v, d, p, writes },
        Request::Recall { v } => Call::Recall { v },
        Request::End { who } => Call::End { who },
    }
}

// What is said of an answer. A function, and no `From`: both types are of other crates.
pub fn said(a: Answer) -> Outcome
    ensures { result ≡ answered a }
{
    match a {
        Answer::Done => Outcome::Done,
        Answer::Later => Outcome::Later,
        Answer::No(n) => Outcome::No(n),
    }
}

// Is something printed for it?
pub fn prints(line: Line) -> bool
    ensures { result ≡ prints_of line }
{
    !matches!(line, Line::Refuse { .. } | Line::Seed { .. } | Line::New)
}
