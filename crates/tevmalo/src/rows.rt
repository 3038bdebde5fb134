// A script as rows of numbers, one a line; what is said of each goes into its row.
ghost use Rattle.std.specs.Prelude.{◌≡◌};
ghost use Rattle.tevmalo.specs.Sheets.{Spoke};

use crate::decoded::line_in;
use crate::said::Said;
use crate::sheet::Sheet;
use script::{Line, Outcome};
use simulator::ends::{BadLine, Script};
use simulator::row::Row;

#[derive(Drop)]
pub struct Rows<'t, 's> {
    rows: &'t [Row],
    sheet: Sheet<'s>,
}

impl<'t, 's> Rows<'t, 's> {
    pub fn new(rows: &'t [Row], said: &'s mut [Said]) -> Rows<'t, 's>
        ensures rows { result.rows.now ≡ rows.now }
        ensures said { result.sheet.rows.now ≡ said.old }
        ensures lines { result.sheet.lines ≡ 0 }
    {
        Rows {
            rows,
            sheet: Sheet::new(said),
        }
    }

    // How many lines were read.
    pub fn read(&self) -> usize
        ensures { result ≡ self.now.sheet.lines }
    {
        self.sheet.lines()
    }
}

impl<'t, 's> Script for Rows<'t, 's> {
    ghost handed = { λ s o t. Spoke s.sheet o t.sheet };

    fn line(&mut self) -> Option<Result<Line, BadLine>> {
        let row = self.rows.get(self.sheet.lines()).copied()?;
        if !self.sheet.turn() {
            return None;
        }
        Some(line_in(row).ok_or(BadLine(self.sheet.lines() as u64)))
    }

    fn outcome(&mut self, o: Outcome) {
        self.sheet.say(o);
    }
}
