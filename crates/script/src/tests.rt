// Examples of every form, good and bad: a script, and what each of its lines is.
use crate::*;
use arrayvec::ArrayString;
use std::fmt::Write;
use std::io;
use std::io::{ErrorKind, Read};
use std::test::Fail;

const SAMPLES: &[u8] = b"\
2 get 5\n\
2 free 5\n\
2 give 5 3 6\n\
2 open 2\n\
2 close 2\n\
2 regs 2 9\n\
2 lend 5 2 700 w\n\
2 lend 5 2 700 r\n\
2 recall 5\n\
0 end 2\n\
2 store 5 0 77\n\
2 load 5 0\n\
dev 1 read 700 0\n\
dev 1 write 700 0 88\n\
keep 1 700\n\
kept 1 700 write 0 88\n\
no 2\n\
seed 9\n\
new\n\
007 get 0000000000000000000000000000000000005\n\
4294967294 get 4294967295\n\
4294967296 get 99999999999999999999999999\n\
no 18446744073709551615\n\
1 store 1 1 00018446744073709551615\n";

#[test]
fn good_lines(rt: HostRuntime) -> Result<(), Fail> {
    let mut lines = Lines::new(SAMPLES);
    let expected = [
        call(2, Request::Get { v: 5 }),
        call(2, Request::Free { v: 5 }),
        call(2, Request::Give { v: 5, to: 3, at: 6 }),
        call(2, Request::Open { d: 2 }),
        call(2, Request::Close { d: 2 }),
        call(2, Request::Regs { d: 2, v: 9 }),
        call(
            2,
            Request::Lend {
                v: 5,
                d: 2,
                p: 700,
                writes: true,
            },
        ),
        call(
            2,
            Request::Lend {
                v: 5,
                d: 2,
                p: 700,
                writes: false,
            },
        ),
        call(2, Request::Recall { v: 5 }),
        call(0, Request::End { who: 2 }),
        Line::Store {
            who: 2,
            v: 5,
            word: 0,
            x: 77,
        },
        Line::Load {
            who: 2,
            v: 5,
            word: 0,
        },
        Line::Read {
            d: 1,
            p: 700,
            word: 0,
        },
        Line::Write {
            d: 1,
            p: 700,
            word: 0,
            x: 88,
        },
        Line::Keep { d: 1, p: 700 },
        Line::Kept {
            d: 1,
            p: 700,
            word: 0,
            x: 88,
        },
        Line::Refuse { n: 2 },
        Line::Seed { s: 9 },
        Line::New,
        call(7, Request::Get { v: 5 }),
        call(0xffff_fffe, Request::Get { v: 0xffff_ffff }),
        call(0xffff_ffff, Request::Get { v: 0xffff_ffff }),
        Line::Refuse {
            n: 0xffff_ffff_ffff_ffff,
        },
        Line::Store {
            who: 1,
            v: 1,
            word: 1,
            x: 0xffff_ffff_ffff_ffff,
        },
    ];
    for line in expected {
        assert!(rt; lines.advance()?.is_some());
        assert_eq!(rt; read_line(lines.line()), Some(line));
    }
    assert_eq!(rt; lines.advance()?, None);
    Ok(())
}

fn call(who: u32, request: Request) -> Line {
    Line::Call { who, request }
}

const BAD: &[u8] = b"\
\n\
\x20\n\
2\n\
2 \n\
2 get\n\
2 get \n\
2 get 5 \n\
\x202 get 5\n\
2  get 5\n\
2 get 5 5\n\
2 get x\n\
2 get 5x\n\
2 get -5\n\
2 get +5\n\
2 GET 5\n\
2 gets 5\n\
2\tget 5\n\
2 get 5\r\n\
get 5\n\
two get 5\n\
2 give 5 3\n\
2 lend 5 2 700\n\
2 lend 5 2 700 x\n\
2 lend 5 2 700 w w\n\
2 store 5 0\n\
2 store 5 0 18446744073709551616\n\
2 load 5\n\
2 load 5 0 0\n\
dev 1\n\
dev 1 700 0\n\
dev 1 read 700\n\
dev 1 read 700 0 88\n\
dev 1 write 700 0\n\
dev 1 Write 700 0 88\n\
keep 1\n\
keep 1 700 0\n\
kept 1 700 read 0 88\n\
kept 1 700 write 0\n\
kept 1 write 700 0 88\n\
no\n\
no 18446744073709551616\n\
no 2 2\n\
seed\n\
seed x\n\
new 1\n\
new \n\
news\n\
# a note\n\
2 get 5\0";

#[test]
fn bad_lines(rt: HostRuntime) -> Result<(), Fail> {
    let mut lines = Lines::new(BAD);
    for k in 1..50u64 {
        assert_eq!(rt; lines.advance()?, Some(k));
        assert_eq!(rt; read_line(lines.line()), None);
    }
    assert_eq!(rt; lines.advance()?, None);
    Ok(())
}

// Noughts before a number, so that the line has this many bytes.
#[test]
fn long_lines(rt: HostRuntime) -> Result<(), Fail> {
    let mut bytes = [b'0'; 600];
    bytes[0] = b'n';
    bytes[1] = b'o';
    bytes[2] = b' ';
    assert_eq!(rt; read_line(&bytes[0..256]), Some(Line::Refuse { n: 0 }));
    assert_eq!(rt; read_line(&bytes[0..257]), None);
    bytes[300] = b'\n';
    bytes[301] = b'n';
    bytes[302] = b'o';
    bytes[303] = b' ';
    let mut lines = Lines::new(&bytes[0..305]);
    assert_eq!(rt; lines.advance()?, Some(1));
    assert_eq!(rt; read_line(lines.line()), None);
    assert_eq!(rt; lines.advance()?, Some(2));
    assert_eq!(rt; read_line(lines.line()), Some(Line::Refuse { n: 0 }));
    assert_eq!(rt; lines.advance()?, None);
    Ok(())
}

const TEXTS: &[u8] = b"\
done\n\
later\n\
no 7\n\
load 77\n\
stored\n\
fault\n\
poked\n\
took 18446744073709551615\n\
put\n\
miss\n\
kept\n\
nothing\n\
not yet\n\
over\n\
line 10?\n\
no 0";

#[test]
fn texts(rt: HostRuntime) -> Result<(), Fail> {
    let mut lines = Lines::new(TEXTS);
    let outcomes = [
        Outcome::Done,
        Outcome::Later,
        Outcome::No(7),
        Outcome::Loaded(77),
        Outcome::Stored,
        Outcome::Fault,
        Outcome::Poked,
        Outcome::Took(0xffff_ffff_ffff_ffff),
        Outcome::Put,
        Outcome::Miss,
        Outcome::Kept,
        Outcome::Nothing,
        Outcome::NotYet,
        Outcome::Over,
        Outcome::BadLine(10),
        Outcome::No(0),
    ];
    for outcome in outcomes {
        assert!(rt; lines.advance()?.is_some());
        let mut text = [0; 32];
        let len = outcome.write(&mut text);
        assert_eq!(rt; &text[0..len], lines.line());
    }
    assert_eq!(rt; lines.advance()?, None);
    Ok(())
}

#[test]
fn displayed_texts(rt: HostRuntime) -> Result<(), Fail> {
    let outcomes = [
        (Outcome::Done, "done"),
        (Outcome::Took(u64::MAX), "took 18446744073709551615"),
        (Outcome::BadLine(10), "line 10?"),
    ];
    for (outcome, text) in outcomes {
        let mut shown = ArrayString::<32>::new();
        write!(shown, "{outcome}")?;
        assert_eq!(rt; shown.as_str(), text);
    }
    Ok(())
}

// A reader that is interrupted once, in mid-line.
#[derive(Drop)]
struct Halting {
    at: u8,
}

impl Read for Halting {
    fn read(&mut self, into: &mut [u8]) -> io::Result<usize> {
        if into.is_empty() {
            return Ok(0);
        }
        self.at = self.at.saturating_add(1);
        match self.at {
            1 => {
                into[0] = b'2';
                Ok(1)
            }
            2 => Err(io::Error::from(ErrorKind::Interrupted)),
            3 => {
                into[0] = b'\n';
                Ok(1)
            }
            _ => Ok(0),
        }
    }
}

// Each error is given, this one, too; the next line is what follows it.
#[test]
fn interrupted(rt: HostRuntime) -> Result<(), Fail> {
    let mut lines = Lines::new(Halting { at: 0 });
    let first = lines.advance();
    assert!(rt; first.is_err());
    assert_eq!(rt; lines.advance()?, Some(1));
    assert!(rt; lines.line().is_empty());
    assert_eq!(rt; lines.advance()?, None);
    Ok(())
}
