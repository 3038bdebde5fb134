// What the keeper may ask of the machine. These take plain numbers, since the trait `Machine` does.
ghost use Rattle.std.specs.Prelude.{◌≡◌, ℕ, ◌+◌, ◌<◌, ◌≤◌, true, ◌∷◌, length, MatchResult};
ghost use Rattle.house.specs.Machine.{Steps, counted, with_mem, put, shows, started, Frame, Registers, Nothing};
ghost use Rattle.simulator.specs.declared.spaces.View.TheVariants.{Page};
ghost use Rattle.simulator.specs.Notes.{event_of, aside};
ghost use Rattle.simulator.specs.Store.{shown_of};
ghost use Rattle.simulator.specs.Parts.{hw_of, seen_of, noted};
ghost use Rattle.simulator.specs.View.{parts_of};

use super::Board;
use crate::events::Event;
use crate::front::NoRoom;
use crate::spaces::View;

impl<'a> Board<'a> {
    pub fn frames(&self) -> u32
        ensures { result ≡ (hw_of (parts_of self.now)).frames }
    {
        self.memory.frames()
    }

    pub fn devices(&self) -> u32
        ensures { result ≡ (hw_of (parts_of self.now)).devices }
    {
        self.devices.len() as u32
    }

    // Two functions of a line each: what they share, `get` and `map_or`, is the library's.
    pub fn group(&self, d: u32) -> u32
        ensures { result ≡ (hw_of (parts_of self.now)).group d }
    {
        self.devices
            .get(d as usize)
            .map_or(0, |device| device.group % 32)
    }

    pub fn driver(&self, d: u32) -> u32
        ensures { result ≡ (hw_of (parts_of self.now)).driver d }
    {
        self.devices
            .get(d as usize)
            .map_or(0, |device| device.driver % 32)
    }

    pub fn put(&mut self, frame: u32, word: u32, x: u64)
        requires left { 0 < (hw_of (parts_of self.old)).left }
        requires frame { frame < (hw_of (parts_of self.old)).frames }
        requires word { word < 512 }
        ensures { Steps (counted (with_mem (put frame word x (hw_of (parts_of self.old)).mem) (hw_of (parts_of self.old)))) (seen_of (parts_of self.old)) (hw_of (parts_of self.new)) (seen_of (parts_of self.new)) }
    {
        self.memory.write(frame, word, x);
        self.left -= 1;
        self.play();
    }

    pub fn get(&mut self, frame: u32, word: u32) -> u64
        requires left { 0 < (hw_of (parts_of self.old)).left }
        requires frame { frame < (hw_of (parts_of self.old)).frames }
        requires word { word < 512 }
        ensures word { result ≡ (hw_of (parts_of self.old)).mem frame word }
        ensures steps { Steps (counted (hw_of (parts_of self.old))) (seen_of (parts_of self.old)) (hw_of (parts_of self.new)) (seen_of (parts_of self.new)) }
    {
        let x = self.memory.word(frame as u64, word);
        self.left -= 1;
        self.play();
        x
    }

    // A place shows something else.
    fn place(&mut self, who: u32, v: u32, view: View)
        requires left { 0 < (hw_of (parts_of self.old)).left }
        requires who { who < 32 }
        requires v { v < 1024 }
        requires frame { (f : ℕ) → view ≡ Page f → f < (parts_of self.old).frames }
        ensures { Steps (counted (shows who v (shown_of view) (hw_of (parts_of self.old)))) (seen_of (parts_of self.old)) (hw_of (parts_of self.new)) (seen_of (parts_of self.new)) }
    {
        self.spaces.set(who, v, view);
        self.left -= 1;
        self.play();
    }

    pub fn show(&mut self, who: u32, v: u32, frame: u32)
        requires left { 0 < (hw_of (parts_of self.old)).left }
        requires who { who < 32 }
        requires v { v < 1024 }
        requires frame { frame < (hw_of (parts_of self.old)).frames }
        ensures { Steps (counted (shows who v (Frame frame) (hw_of (parts_of self.old)))) (seen_of (parts_of self.old)) (hw_of (parts_of self.new)) (seen_of (parts_of self.new)) }
    {
        self.place(who, v, View::Page(frame));
    }

    pub fn show_registers(&mut self, who: u32, v: u32, d: u32)
        requires left { 0 < (hw_of (parts_of self.old)).left }
        requires who { who < 32 }
        requires v { v < 1024 }
        requires d { d < (hw_of (parts_of self.old)).devices }
        ensures { Steps (counted (shows who v (Registers d) (hw_of (parts_of self.old)))) (seen_of (parts_of self.old)) (hw_of (parts_of self.new)) (seen_of (parts_of self.new)) }
    {
        self.place(who, v, View::Regs(d));
    }

    pub fn hide(&mut self, who: u32, v: u32)
        requires left { 0 < (hw_of (parts_of self.old)).left }
        requires who { who < 32 }
        requires v { v < 1024 }
        ensures { Steps (counted (shows who v Nothing (hw_of (parts_of self.old)))) (seen_of (parts_of self.old)) (hw_of (parts_of self.new)) (seen_of (parts_of self.new)) }
    {
        self.place(who, v, View::Hidden);
    }

    pub fn start(&mut self)
        requires { 0 < (hw_of (parts_of self.old)).left }
        ensures { Steps (counted (started (hw_of (parts_of self.old)))) (seen_of (parts_of self.old)) (hw_of (parts_of self.new)) (seen_of (parts_of self.new)) }
    {
        self.live = true;
        self.left -= 1;
        self.play();
    }

    // Notes what is neither asked nor answered, where there is room beyond what is owed.
    pub fn note_aside(&mut self, e: Event) -> Result<(), NoRoom>
        requires { aside (event_of e) ≡ true }
        ensures parts { MatchResult result (λ _. parts_of self.new ≡ noted (e ∷ (parts_of self.old).notes) (parts_of self.old)) (λ _. parts_of self.new ≡ parts_of self.old) }
        ensures room { MatchResult result (λ _. self.old.log.rows.count + self.old.left + 1 < length self.old.log.rows.all.now) (λ _. length self.old.log.rows.all.now ≤ self.old.log.rows.count + self.old.left + 1) }
    {
        if self.log.room() as u64 <= self.left + 1 {
            return Err(NoRoom);
        }
        self.log.push(e);
        Ok(())
    }
}
