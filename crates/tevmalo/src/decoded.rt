// A line of a script from a row of numbers. Where a line brings about an event, both have the same kind.
ghost use Rattle.std.specs.Prelude.{◌≡◌};
ghost use Rattle.tevmalo.specs.Decoded.{line_in, request_in};

use script::{Line, Request};
use simulator::row::Row;

// None where it is no line.
pub fn line_in(row: Row) -> Option<Line>
    ensures { result ≡ line_in row }
{
    let Row {
        who,
        a,
        b,
        c,
        x,
        ..
    } = row;
    Some(match row.kind {
        0 => Line::Call {
            who,
            request: request_in(row)?,
        },
        4 => Line::Load { who, v: a, word: b },
        5 => Line::Store {
            who,
            v: a,
            word: b,
            x,
        },
        8 => Line::Read {
            d: who,
            p: a,
            word: c,
        },
        9 => Line::Write {
            d: who,
            p: a,
            word: c,
            x,
        },
        12 => Line::Keep { d: who, p: a },
        13 => Line::Kept {
            d: who,
            p: a,
            word: c,
            x,
        },
        14 => Line::Refuse { n: x },
        15 => Line::Seed { s: x },
        16 => Line::New,
        _ => return None,
    })
}

fn request_in(row: Row) -> Option<Request>
    ensures { result ≡ request_in row }
{
    let Row { a, b, c, .. } = row;
    Some(match row.call {
        0 => Request::Get { v: a },
        1 => Request::Free { v: a },
        2 => Request::Give { v: a, to: b, at: c },
        3 => Request::Open { d: a },
        4 => Request::Close { d: a },
        5 => Request::Regs { d: a, v: b },
        6 => Request::Lend {
            v: a,
            d: b,
            p: c,
            writes: row.flag == 1,
        },
        7 => Request::Recall { v: a },
        8 => Request::End { who: a },
        _ => return None,
    })
}
