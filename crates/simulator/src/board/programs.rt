// What programs do with their spaces while nobody is served. Their numbers are as a line of a script has them: tested here.
ghost use Rattle.script.specs.declared.forms.Line.TheVariants.{Load, Store};
ghost use Rattle.simulator.specs.Parts.{seen_of, Ran};
ghost use Rattle.std.specs.Prelude.{◌≡◌, length};
ghost use Rattle.script.specs.declared.outcomes.Outcome.TheVariants.{No};
ghost use Rattle.simulator.specs.Heard.{Heard, Beyond, said_of};
ghost use Rattle.simulator.specs.Shows.{Showed};
ghost use Rattle.simulator.specs.View.{parts_of};

use super::Board;
use crate::events::Event;
use crate::ranges::in_space;
use crate::refused::Refused;
use crate::spaces::View;
use script::Outcome;

impl<'a> Board<'a> {
    // The frame that a place shows, or what is said where it shows none.
    fn frame_shown(&mut self, who: u32, v: u32, word: u32) -> Result<Result<u32, Outcome>, Refused>
        ensures { Showed (parts_of self.old) who v word result (parts_of self.new) }
    {
        in_space(who, v, word)?;
        match self.spaces.view(who, v) {
            View::Hidden => {
                self.note_aside(Event::Faulted { who, v })?;
                Ok(Err(Outcome::Fault))
            }
            View::Regs(d) => {
                self.note_aside(Event::Poked { who, v, d })?;
                Ok(Err(Outcome::Poked))
            }
            View::Page(frame) => Ok(Ok(frame)),
        }
    }

    // A program reads a word at a place.
    pub fn load(&mut self, who: u32, v: u32, word: u32) -> Result<Outcome, Refused>
        ensures ran { Ran (parts_of self.old) (parts_of self.new) }
        ensures heard { Heard (seen_of (parts_of self.old)) (Load who v word) (said_of result) (seen_of (parts_of self.new)) }
        ensures beyond { said_of result ≡ No 1 → Beyond (length (parts_of self.old).devices) (Load who v word) }
    {
        let frame = match self.frame_shown(who, v, word)? {
            Ok(frame) => frame,
            Err(said) => return Ok(said),
        };
        let x = self.memory.word(frame as u64, word);
        self.note_aside(Event::Loaded { who, v, word, x })?;
        Ok(Outcome::Loaded(x))
    }

    // A program writes a word at a place.
    pub fn store(&mut self, who: u32, v: u32, word: u32, x: u64) -> Result<Outcome, Refused>
        ensures ran { Ran (parts_of self.old) (parts_of self.new) }
        ensures heard { Heard (seen_of (parts_of self.old)) (Store who v word x) (said_of result) (seen_of (parts_of self.new)) }
        ensures beyond { said_of result ≡ No 1 → Beyond (length (parts_of self.old).devices) (Store who v word x) }
    {
        let frame = match self.frame_shown(who, v, word)? {
            Ok(frame) => frame,
            Err(said) => return Ok(said),
        };
        self.note_aside(Event::Stored { who, v, word, x })?;
        self.memory.write(frame, word, x);
        Ok(Outcome::Stored)
    }
}
