// A script as text: its lines are read one by one, and what is said of each goes into its row.
ghost use Rattle.std.specs.Prelude.{◌≡◌};
ghost use Rattle.tevmalo.specs.Sheets.{Spoke};

use crate::said::Said;
use crate::sheet::Sheet;
use script::{Line, Lines, Outcome, read_line};
use simulator::ends::{BadLine, Script};

#[derive(Drop)]
pub struct Text<'t, 's> {
    lines: Lines<&'t [u8]>,
    sheet: Sheet<'s>,
}

impl<'t, 's> Text<'t, 's> {
    pub fn new(text: &'t [u8], said: &'s mut [Said]) -> Text<'t, 's>
        ensures rows { result.sheet.rows.now ≡ said.old }
        ensures lines { result.sheet.lines ≡ 0 }
    {
        Text {
            lines: Lines::new(text),
            sheet: Sheet::new(said),
        }
    }

    // How many lines were read.
    pub fn read(&self) -> usize
        ensures { result ≡ self.now.sheet.lines }
    {
        self.sheet.lines()
    }
}

impl<'t, 's> Script for Text<'t, 's> {
    ghost handed = { λ s o t. Spoke s.sheet o t.sheet };

    // Reading from memory does not fail.
    fn line(&mut self) -> Option<Result<Line, BadLine>> {
        let number = self.lines.advance().ok()??;
        if !self.sheet.turn() {
            return None;
        }
        Some(read_line(self.lines.line()).ok_or(BadLine(number)))
    }

    fn outcome(&mut self, o: Outcome) {
        self.sheet.say(o);
    }
}
