// Standard input and output as the two ends of a script.
ghost use Rattle.std.specs.Prelude.{◌≡◌, Some};

use script::{Line, Lines, Outcome, read_line};
use simulator::ends::{BadLine, Script};
use std::io;
use std::io::{Read, Write};

// `last` is what was handed over last, if anything was. Once reading or writing has failed, the script is at its end.
#[derive(Drop)]
pub struct Console<R, W> {
    lines: Lines<R>,
    out: W,
    last: Option<Outcome>,
    failed: Option<io::Error>,
}

impl<R: Read, W: Write> Console<R, W> {
    pub fn new(lines: Lines<R>, out: W) -> Console<R, W> {
        Console {
            lines,
            out,
            last: None,
            failed: None,
        }
    }

    // Prints what is still held back, and says whether all went well.
    pub fn finish(&mut self) -> io::Result<()> {
        if let Some(e) = self.failed {
            return Err(e);
        }
        self.out.flush()
    }
}

impl<R: Read, W: Write> Script for Console<R, W> {
    ghost handed = { λ s o t. t.last ≡ Some o };

    fn line(&mut self) -> Option<Result<Line, BadLine>> {
        if self.failed.is_some() {
            return None;
        }
        match self.lines.advance() {
            Ok(number) => {
                let number = number?;
                Some(read_line(self.lines.line()).ok_or(BadLine(number)))
            }
            Err(e) => {
                self.failed = Some(e);
                None
            }
        }
    }

    fn outcome(&mut self, o: Outcome) {
        self.last = Some(o);
        if let Err(e) = writeln!(self.out, "{}", o.text().as_str()) {
            self.failed = Some(e);
        }
    }
}
