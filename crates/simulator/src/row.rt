// An event as a row of numbers: what is lent from outside are such rows, since an enum does not cross to C.
ghost use Rattle.std.specs.Prelude.{◌≡◌};
ghost use Rattle.simulator.specs.Rows.{call_in, event_in};

use crate::events::Event;
use house::{Answer, Call};

// Which event it is, and what of it is where: rust/include/tevmalo.h has the table.
#[repr(C)]
#[derive(Clone, Copy, PartialEq, Eq, Debug, Default)]
pub struct Row {
    pub kind: u32,
    // the program, or the device
    pub who: u32,
    pub call: u32,
    pub a: u32,
    pub b: u32,
    pub c: u32,
    // 1 for an access that writes, and for a yes
    pub flag: u32,
    // why a call is refused
    pub reason: u32,
    // the word
    pub x: u64,
}

impl From<Event> for Row {
    ghost from_gives = { λ event row. event_in row ≡ event };

    #[inline(always)]
    fn from(event: Event) -> Row {
        match event {
            Event::Asked { who, call } => of_call(0, who, call, 0),
            Event::Told { who, call, answer } => match answer {
                Answer::Done => of_call(1, who, call, 0),
                Answer::Later => of_call(2, who, call, 0),
                Answer::No(reason) => of_call(3, who, call, reason),
            },
            Event::Loaded { who, v, word, x } => Row {
                a: v,
                b: word,
                x,
                ..blank(4, who)
            },
            Event::Stored { who, v, word, x } => Row {
                a: v,
                b: word,
                x,
                ..blank(5, who)
            },
            Event::Faulted { who, v } => Row {
                a: v,
                ..blank(6, who)
            },
            Event::Poked { who, v, d } => Row {
                a: v,
                b: d,
                ..blank(7, who)
            },
            Event::Took {
                d,
                p,
                frame,
                word,
                x,
            } => Row {
                a: p,
                b: frame,
                c: word,
                x,
                ..blank(8, d)
            },
            Event::Put {
                d,
                p,
                frame,
                word,
                x,
            } => Row {
                a: p,
                b: frame,
                c: word,
                x,
                ..blank(9, d)
            },
            Event::Missed { d, p, writes } => Row {
                a: p,
                flag: u32::from(writes),
                ..blank(10, d)
            },
            Event::Drained { d, said } => Row {
                flag: u32::from(said),
                ..blank(11, d)
            },
        }
    }
}

impl From<Row> for Event {
    ghost from_gives = { λ row event. event ≡ event_in row };

    fn from(row: Row) -> Event {
        let Row {
            who,
            a,
            b,
            c,
            x,
            ..
        } = row;
        let flag = row.flag == 1;
        match row.kind {
            0 => Event::Asked {
                who,
                call: call_in(row),
            },
            1 => Event::Told {
                who,
                call: call_in(row),
                answer: Answer::Done,
            },
            2 => Event::Told {
                who,
                call: call_in(row),
                answer: Answer::Later,
            },
            3 => Event::Told {
                who,
                call: call_in(row),
                answer: Answer::No(row.reason),
            },
            4 => Event::Loaded {
                who,
                v: a,
                word: b,
                x,
            },
            5 => Event::Stored {
                who,
                v: a,
                word: b,
                x,
            },
            6 => Event::Faulted { who, v: a },
            7 => Event::Poked { who, v: a, d: b },
            8 => Event::Took {
                d: who,
                p: a,
                frame: b,
                word: c,
                x,
            },
            9 => Event::Put {
                d: who,
                p: a,
                frame: b,
                word: c,
                x,
            },
            10 => Event::Missed {
                d: who,
                p: a,
                writes: flag,
            },
            _ => Event::Drained { d: who, said: flag },
        }
    }
}

// A row with nothing but a kind and a number.
#[inline(always)]
fn blank(kind: u32, who: u32) -> Row
    ensures kind { result.kind ≡ kind }
    ensures who { result.who ≡ who }
{
    Row {
        kind,
        who,
        call: 0,
        a: 0,
        b: 0,
        c: 0,
        flag: 0,
        reason: 0,
        x: 0,
    }
}

// A row of a call, with the reason why it is refused, if it is.
#[inline(always)]
fn of_call(kind: u32, who: u32, call: Call, reason: u32) -> Row
    ensures kind { result.kind ≡ kind }
    ensures who { result.who ≡ who }
    ensures call { call_in result ≡ call }
    ensures reason { result.reason ≡ reason }
{
    let (number, a, b, c, flag) = match call {
        Call::Get { v } => (0, v, 0, 0, false),
        Call::Free { v } => (1, v, 0, 0, false),
        Call::Give { v, to, at } => (2, v, to, at, false),
        Call::Open { d } => (3, d, 0, 0, false),
        Call::Close { d } => (4, d, 0, 0, false),
        Call::Regs { d, v } => (5, d, v, 0, false),
        Call::Lend { v, d, p, writes } => (6, v, d, p, writes),
        Call::Recall { v } => (7, v, 0, 0, false),
        Call::End { who } => (8, who, 0, 0, false),
    };
    Row {
        kind,
        who,
        call: number,
        a,
        b,
        c,
        flag: u32::from(flag),
        reason,
        x: 0,
    }
}

// The call that a row is about.
fn call_in(row: Row) -> Call
    ensures { result ≡ call_in row }
{
    let Row { a, b, c, .. } = row;
    match row.call {
        0 => Call::Get { v: a },
        1 => Call::Free { v: a },
        2 => Call::Give { v: a, to: b, at: c },
        3 => Call::Open { d: a },
        4 => Call::Close { d: a },
        5 => Call::Regs { d: a, v: b },
        6 => Call::Lend {
            v: a,
            d: b,
            p: c,
            writes: row.flag == 1,
        },
        7 => Call::Recall { v: a },
        _ => Call::End { who: a },
    }
}
