// What is said of each line of a script: a row a line, in a lent slice.
ghost use Rattle.std.specs.Prelude.{◌≡◌, ◌<◌, ◌≤◌, length, nat_lt};

use crate::said::Said;
use script::Outcome;

#[derive(Drop)]
pub struct Sheet<'a> {
    rows: &'a mut [Said],
    // how many lines were read
    lines: usize,
    ghost within: { lines ≤ length rows.now },
}

impl<'a> Sheet<'a> {
    ghost use Rattle.tevmalo.specs.Sheets.{Turned, Spoke};

    // Nothing was read yet.
    pub fn new(rows: &'a mut [Said]) -> Sheet<'a>
        ensures rows { result.rows.now ≡ rows.old }
        ensures lines { result.lines ≡ 0 }
    {
        Sheet { rows, lines: 0 }
    }

    pub fn lines(&self) -> usize
        ensures { result ≡ self.now.lines }
    {
        self.lines
    }

    // One more line is read, and nothing is said of it yet; says whether there is a row for it.
    pub fn turn(&mut self) -> bool
        ensures room { result ≡ nat_lt self.old.lines (length self.old.rows.now) }
        ensures turned { Turned self.old result self.new }
    {
        if self.lines == self.rows.len() {
            return false;
        }
        self.rows[self.lines] = Said::default();
        self.lines += 1;
        true
    }

    // This is said of the latest line.
    pub fn say(&mut self, outcome: Outcome)
        ensures { Spoke self.old outcome self.new }
    {
        if self.lines > 0 {
            self.rows[self.lines - 1] = Said::from(outcome);
        }
    }
}
