// Where the registers of devices are shown.
ghost use Rattle.std.specs.Prelude.{◌≡◌, ◌<◌};
ghost use Rattle.ledger.specs.declared.Place.TheVariants.{Nothing, Registers};
ghost use Rattle.ledger.specs.declared.Device.TheVariants.{Opened};
ghost use Rattle.ledger.specs.Room.{place_of, device_of};
ghost use Rattle.ledger.specs.View.{with_place};
ghost use Rattle.ledger.specs.Uses.{shows_any, shows_registers};
ghost use Rattle.ledger.specs.Changes.{unregistered, vacated};
ghost use Rattle.ledger.specs.Rooms.{says, Becomes};

use crate::places::set_place;
use crate::{Address, Place, Room};

impl Room<'_> {
    // A place that shows nothing shows the registers of d, which its program has open.
    pub fn show_registers(&mut self, at: Address, d: u32)
        requires place { place_of self.old.words.now at.who at.v ≡ Nothing }
        requires device { d < 32 }
        requires open { device_of self.old.words.now d ≡ Opened at.who }
        ensures { Becomes self.old (with_place at.who at.v (Registers d) (says self.old)) self.new }
    {
        set_place(self.words, at, Place::Registers(d));
    }

    // If a place shows the registers of d, it shows nothing now; says whether that was so.
    pub fn hide_registers(&mut self, at: Address, d: u32) -> bool
        ensures answer { result ≡ shows_registers d (place_of self.old.words.now at.who at.v) }
        ensures room { Becomes self.old (unregistered at.who at.v d (says self.old)) self.new }
    {
        let shows = shows_registers(self.place(at), d);
        if shows {
            set_place(self.words, at, Place::Nothing);
        }
        shows
    }

    // A place shows nothing now, and if it showed a page, that is idle; says whether it showed anything.
    pub fn vacate(&mut self, at: Address) -> bool
        ensures answer { result ≡ shows_any (place_of self.old.words.now at.who at.v) }
        ensures room { Becomes self.old (vacated at.who at.v (says self.old)) self.new }
    {
        match self.place(at) {
            Place::Nothing => false,
            Place::Page(f) => {
                self.free_page(at, f);
                true
            }
            Place::Registers(_) => {
                set_place(self.words, at, Place::Nothing);
                true
            }
        }
    }
}

fn shows_registers(shown: Place, d: u32) -> bool
    ensures { result ≡ shows_registers d shown }
{
    matches!(shown, Place::Registers(e) if e == d)
}
