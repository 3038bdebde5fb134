// A machine that plays a script: what the keeper may ask, and the programs of the script.
ghost use Rattle.std.specs.Prelude.{◌≡◌, ◌∷◌};
ghost use Rattle.simulator.specs.Parts.{hw_of, seen_of};
ghost use Rattle.simulator.specs.View.{parts_of};
ghost use Rattle.simulator.specs.Heard.{Answered, HandedOver, outcome_of};
ghost use Rattle.simulator.specs.Turns.{Turned};
ghost use Rattle.simulator.specs.declared.sim.Ended.TheVariants as ended;
ghost use Rattle.house.specs.Event.{Told};
ghost use Rattle.house.specs.Meaning.{Explained};
ghost use Rattle.house.specs.Promise.{can, start_of};

use crate::board::Board;
use crate::ends::{BadLine, Script};
use crate::front::NoRoom;
use crate::replies::{Reply, prints, said};
use house::{Answer, Call, Machine, World};
use script::{Line, Outcome};

// Why there is no call any more.
#[derive(Clone, Copy, PartialEq, Eq, Debug)]
pub enum Ended {
    // the script is at its end
    Script,
    // another machine is wanted
    New,
    // the log is full
    Full,
}

impl From<NoRoom> for Ended {
    ghost from_gives = { λ _ e. e ≡ ended.Full };

    fn from(_e: NoRoom) -> Ended {
        Ended::Full
    }
}

#[derive(Drop)]
pub struct Sim<'a, 'b, 's, S> {
    pub board: &'b mut Board<'a>,
    pub script: &'s mut S,
    // none while it goes on
    pub ended: Option<Ended>,
}

impl<'a, 'b, 's, S: Script> Sim<'a, 'b, 's, S> {
    // One line is played, and what is said of it is handed over.
    fn play_line(&mut self, line: Line) -> Result<Reply, NoRoom>
        ensures board { Answered line (parts_of self.old.board.now) result (parts_of self.new.board.now) }
        ensures script { HandedOver S.Script.handed self.old.script.now line result self.new.script.now }
    {
        let reply = self.board.answer(line);
        match reply {
            Ok(Reply::Says(o)) => self.script.outcome(o),
            Ok(Reply::Quiet | Reply::Asks(..)) => {}
            Err(NoRoom) => {
                if prints(line) {
                    self.script.outcome(Outcome::Over);
                }
            }
        }
        reply
    }

    // Tricks, and then the next line of the script: whether a program asks then, or why all is over.
    fn turn(&mut self) -> Result<Option<(u32, Call)>, Ended>
        ensures { Turned (parts_of self.old.board.now) result (parts_of self.new.board.now) }
    {
        self.board.play();
        match self.script.line() {
            Some(Ok(Line::New)) => Err(Ended::New),
            Some(Ok(line)) => match self.play_line(line)? {
                Reply::Asks(who, call) => Ok(Some((who, call))),
                Reply::Says(_) | Reply::Quiet => Ok(None),
            },
            Some(Err(BadLine(k))) => {
                self.script.outcome(Outcome::BadLine(k));
                Ok(None)
            }
            None => Err(Ended::Script),
        }
    }

    // An answer is noted, and handed over.
    fn hand_answer(&mut self, who: u32, c: Call, a: Answer)
        requires { Explained can (start_of (hw_of (parts_of self.old.board.now))) (Told who c a ∷ seen_of (parts_of self.old.board.now)) }
        ensures hw { hw_of (parts_of self.new.board.now) ≡ hw_of (parts_of self.old.board.now) }
        ensures seen { seen_of (parts_of self.new.board.now) ≡ Told who c a ∷ seen_of (parts_of self.old.board.now) }
        ensures script { S.Script.handed self.old.script.now (outcome_of (Told who c a)) self.new.script.now }
    {
        self.board.tell(who, c, a);
        self.script.outcome(said(a));
    }
}

impl<'a, 'b, 's, S: Script> Machine for Sim<'a, 'b, 's, S> {
    ghost hw = { λ s. hw_of (parts_of s.board.now) };

    ghost seen = { λ s. seen_of (parts_of s.board.now) };

    fn frames(&self) -> u32 {
        self.board.frames()
    }

    fn devices(&self) -> u32 {
        self.board.devices()
    }

    fn group(&self, d: u32) -> u32 {
        self.board.group(d)
    }

    fn driver(&self, d: u32) -> u32 {
        self.board.driver(d)
    }

    fn put(&mut self, frame: u32, word: u32, x: u64) {
        self.board.put(frame, word, x);
    }

    fn get(&mut self, frame: u32, word: u32) -> u64 {
        self.board.get(frame, word)
    }

    fn show(&mut self, who: u32, v: u32, frame: u32) {
        self.board.show(who, v, frame);
    }

    fn show_registers(&mut self, who: u32, v: u32, d: u32) {
        self.board.show_registers(who, v, d);
    }

    fn hide(&mut self, who: u32, v: u32) {
        self.board.hide(who, v);
    }

    fn start(&mut self) {
        self.board.start();
    }

    fn drain(&mut self, d: u32) -> bool {
        self.board.drain(d)
    }
}

impl<'a, 'b, 's, S: Script> World for Sim<'a, 'b, 's, S> {
    // Counted: without a count a loop until the script ends needs a `Wait` bound, and no function here may have one.
    fn next(&mut self) -> Option<(u32, Call)> {
        for _ in 0..u64::MAX {
            match self.turn() {
                Ok(Some(asked)) => return Some(asked),
                Ok(None) => {}
                Err(why) => {
                    self.ended = Some(why);
                    return None;
                }
            }
        }
        None
    }

    fn told(&mut self, who: u32, c: Call, a: Answer) {
        self.hand_answer(who, c, a);
    }
}
