// A line from its bytes.
ghost use Rattle.std.specs.Prelude.{◌≡◌, Some, IfSome};
ghost use Rattle.script.specs.Language.{Writes};
ghost use Rattle.script.specs.Parser.{sentence_of, program_of, machine_of, access_of, kept_of};

use crate::fields::Field;
use crate::forms::{Line, Request};
use crate::words::Words;

// How many bytes a line has at most.
pub const LONGEST: usize = 256;

// The line that the bytes write, if they write one. They have no line feed.
pub fn read_line(bytes: &[u8]) -> Option<Line>
    ensures sound { IfSome result (λ l. Writes l bytes.now) }
    ensures complete { (l : Line) → Writes l bytes.now → result ≡ Some l }
{
    if bytes.len() > LONGEST {
        return None;
    }
    let mut words = Words::new(bytes);
    sentence(&mut words)
}

fn sentence(words: &mut Words) -> Option<Line>
    ensures { result ≡ sentence_of words.old }
{
    let head = words.next()?;
    match u32::from_word(head) {
        Some(who) => program_line(who, words),
        None => machine_line(head, words),
    }
}

// What follows a program's number.
fn program_line(who: u32, words: &mut Words) -> Option<Line>
    ensures { result ≡ program_of who words.old }
{
    let request = match words.next()? {
        b"load" => {
            return Some(Line::Load {
                who,
                v: words.parse()?,
                word: words.parse_last()?,
            });
        }
        b"store" => {
            return Some(Line::Store {
                who,
                v: words.parse()?,
                word: words.parse()?,
                x: words.parse_last()?,
            });
        }
        b"get" => Request::Get {
            v: words.parse_last()?,
        },
        b"free" => Request::Free {
            v: words.parse_last()?,
        },
        b"give" => Request::Give {
            v: words.parse()?,
            to: words.parse()?,
            at: words.parse_last()?,
        },
        b"open" => Request::Open {
            d: words.parse_last()?,
        },
        b"close" => Request::Close {
            d: words.parse_last()?,
        },
        b"regs" => Request::Regs {
            d: words.parse()?,
            v: words.parse_last()?,
        },
        b"lend" => Request::Lend {
            v: words.parse()?,
            d: words.parse()?,
            p: words.parse()?,
            writes: words.parse_last()?,
        },
        b"recall" => Request::Recall {
            v: words.parse_last()?,
        },
        b"end" => Request::End {
            who: words.parse_last()?,
        },
        _ => return None,
    };
    Some(Line::Call { who, request })
}

// What follows a first word that is not a number.
#[tactic(auto, using(crate::proofs::Others::other_length, crate::proofs::Others::other_first))]
fn machine_line(head: &[u8], words: &mut Words) -> Option<Line>
    ensures { result ≡ machine_of head.now words.old }
{
    match head {
        b"dev" => access(words),
        b"keep" => Some(Line::Keep {
            d: words.parse()?,
            p: words.parse_last()?,
        }),
        b"kept" => kept(words),
        b"no" => Some(Line::Refuse {
            n: words.parse_last()?,
        }),
        b"seed" => Some(Line::Seed {
            s: words.parse_last()?,
        }),
        b"new" => words.next().is_none().then_some(Line::New),
        _ => None,
    }
}

fn access(words: &mut Words) -> Option<Line>
    ensures { result ≡ access_of words.old }
{
    let d = words.parse()?;
    match words.next()? {
        b"read" => Some(Line::Read {
            d,
            p: words.parse()?,
            word: words.parse_last()?,
        }),
        b"write" => Some(Line::Write {
            d,
            p: words.parse()?,
            word: words.parse()?,
            x: words.parse_last()?,
        }),
        _ => None,
    }
}

fn kept(words: &mut Words) -> Option<Line>
    ensures { result ≡ kept_of words.old }
{
    let d = words.parse()?;
    let p = words.parse()?;
    match words.next()? {
        b"write" => Some(Line::Kept {
            d,
            p,
            word: words.parse()?,
            x: words.parse_last()?,
        }),
        _ => None,
    }
}
