// Calls: a program asks, and is told.
ghost use Rattle.std.specs.Prelude.{◌≡◌, ℕ, ◌+◌, ◌<◌, ◌≤◌, ◌∷◌, length, Some, Ok, IfOk, IfErr};
ghost use Rattle.house.specs.Event.{Told};
ghost use Rattle.house.specs.Meaning.{Explained};
ghost use Rattle.house.specs.Promise.{can, start_of};
ghost use Rattle.script.specs.declared.forms.Line.TheVariants.{Call as Calls, Refuse, Seed};
ghost use Rattle.script.specs.declared.outcomes.Outcome.TheVariants.{No};
ghost use Rattle.simulator.specs.declared.replies.Reply.TheVariants.{Says};
ghost use Rattle.simulator.specs.Parts.{hw_of, seen_of};
ghost use Rattle.simulator.specs.Heard.{Replied, Answered, Beyond, reply_of};
ghost use Rattle.simulator.specs.View.{parts_of};

use super::Board;
use crate::dice::Dice;
use crate::events::Event;
use crate::front::NoRoom;
use crate::ranges::{PROGRAMS, below};
use crate::refused::Refused;
use crate::replies::{Reply, call_of};
use house::{Answer, Call};
use script::{Line, Outcome, Request};

// So often the machine may be asked for something in a call.
pub const ASKINGS: u64 = 2048;

// So many events a call can bring about: its asking, its answer, and one for each of the 2,048 things asked of the machine.
const CALL: usize = ASKINGS as usize + 2;

impl<'a> Board<'a> {
    // A program asks for something, for which there is room.
    #[inline(always)]
    fn ask(&mut self, who: u32, request: Request) -> Result<Reply, Refused>
        requires { self.old.log.rows.count + 2050 ≤ length self.old.log.rows.all.now }
        ensures replied { Replied (Calls who request) (parts_of self.old) (reply_of result) (parts_of self.new) }
        ensures beyond { reply_of result ≡ Says (No 1) → 32 ≤ who }
    {
        below(who, PROGRAMS)?;
        let call = call_of(request);
        self.log.push(Event::Asked { who, call });
        self.left = ASKINGS;
        Ok(Reply::Asks(who, call))
    }

    // It is told the answer.
    #[inline(always)]
    pub fn tell(&mut self, who: u32, c: Call, a: Answer)
        requires { Explained can (start_of (hw_of (parts_of self.old))) (Told who c a ∷ seen_of (parts_of self.old)) }
        ensures hw { hw_of (parts_of self.new) ≡ hw_of (parts_of self.old) }
        ensures seen { seen_of (parts_of self.new) ≡ Told who c a ∷ seen_of (parts_of self.old) }
    {
        self.log.push(Event::Told {
            who,
            call: c,
            answer: a,
        });
    }

    // The next `n` drains say no, whatever was told before.
    fn refuse_next(&mut self, n: u64)
        ensures parts { parts_of self.new ≡ parts_of self.old }
        ensures refusals { self.new.refusals ≡ n }
    {
        self.refusals = n;
    }

    // Tricks are chosen by a seed from now on.
    fn sow(&mut self, seed: u64)
        ensures parts { parts_of self.new ≡ parts_of self.old }
        ensures dice { self.new.dice ≡ Some (record { state = seed }) }
    {
        self.dice = Some(Dice::from_seed(seed));
    }

    // What becomes of a line, while there is room for a call.
    #[inline(always)]
    fn reply(&mut self, line: Line) -> Result<Reply, Refused>
        requires { self.old.log.rows.count + 2050 ≤ length self.old.log.rows.all.now }
        ensures replied { Replied line (parts_of self.old) (reply_of result) (parts_of self.new) }
        ensures beyond { reply_of result ≡ Says (No 1) → Beyond (length (parts_of self.old).devices) line }
        ensures refusals { (n : ℕ) → line ≡ Refuse n → self.new.refusals ≡ n }
        ensures sown { (s : ℕ) → line ≡ Seed s → self.new.dice ≡ Some (record { state = s }) }
    {
        Ok(match line {
            Line::Call { who, request } => self.ask(who, request)?,
            Line::Store { who, v, word, x } => Reply::Says(self.store(who, v, word, x)?),
            Line::Load { who, v, word } => Reply::Says(self.load(who, v, word)?),
            Line::Read { d, p, word } => Reply::Says(self.read(d, p, word)?),
            Line::Write { d, p, word, x } => Reply::Says(self.write(d, p, word, x)?),
            Line::Keep { d, p } => Reply::Says(self.keep(d, p)?),
            Line::Kept { d, p, word, x } => Reply::Says(self.write_kept(d, p, word, x)?),
            Line::Refuse { n } => {
                self.refuse_next(n);
                Reply::Quiet
            }
            Line::Seed { s } => {
                self.sow(s);
                Reply::Quiet
            }
            Line::New => Reply::Quiet,
        })
    }

    // What becomes of a line. Nothing any more once there is no room for a call.
    #[inline(always)]
    pub fn answer(&mut self, line: Line) -> Result<Reply, NoRoom>
        ensures answered { Answered line (parts_of self.old) result (parts_of self.new) }
        ensures beyond { result ≡ Ok (Says (No 1)) → Beyond (length (parts_of self.old).devices) line }
        ensures full { IfErr result (λ _. length self.old.log.rows.all.now < self.old.log.rows.count + 2050) }
        ensures refusals { IfOk result (λ _. (n : ℕ) → line ≡ Refuse n → self.new.refusals ≡ n) }
        ensures sown { IfOk result (λ _. (s : ℕ) → line ≡ Seed s → self.new.dice ≡ Some (record { state = s })) }
    {
        if self.log.room() < CALL {
            return Err(NoRoom);
        }
        Ok(
            self.reply(line)
                .unwrap_or_else(|e| Reply::Says(Outcome::from(e))),
        )
    }
}
