// What each of 1,024 places shows to each of 32 programs, in one lent slice.
// Plain numbers, as the trait `Machine` has them.
ghost use Rattle.std.specs.Prelude.{◌≡◌, ℕ, ◌+◌, ◌*◌, ◌<◌, length, slice_index_or, slice_set};

// What a place shows: nothing, a page in a frame, a device's registers.
#[derive(Clone, Copy, PartialEq, Eq, Debug, Default)]
pub enum View {
    #[default]
    Hidden,
    Page(u32),
    Regs(u32),
}

#[derive(Drop)]
pub struct Spaces<'a> {
    places: &'a mut [View],
    ghost whole: { length places.now ≡ 32768 },
}

impl<'a> Spaces<'a> {
    ghost use Rattle.simulator.specs.declared.spaces.View.TheVariants.{Hidden};
    ghost use Rattle.simulator.specs.Store.{space_of, space_below, shown_of, Viewed};

    // Spaces that show nothing.
    pub fn new(places: &'a mut [View]) -> Self
        requires { length places.old ≡ 32768 }
        ensures { (k : ℕ) → slice_index_or result.places.now k Hidden ≡ Hidden }
    {
        places.fill(View::Hidden);
        Spaces { places }
    }

    pub fn view(&self, who: u32, v: u32) -> View
        requires who { who < 32 }
        requires v { v < 1024 }
        ensures view { result ≡ slice_index_or self.now.places.now (1024 * who + v) Hidden }
        ensures shown { shown_of result ≡ space_of self.now.places.now who v }
    {
        self.places[1024 * who as usize + v as usize]
    }

    // What a place shows, if there are so many frames: a page in one that there is not is hidden. A device's number is taken modulo 32.
    pub fn view_below(&self, who: u32, v: u32, frames: u32) -> View
        requires who { who < 32 }
        requires v { v < 1024 }
        ensures { Viewed frames result (space_below frames self.now.places.now who v) }
    {
        match self.view(who, v) {
            View::Page(f) if f >= frames => View::Hidden,
            View::Regs(d) => View::Regs(d % 32),
            view => view,
        }
    }

    pub fn set(&mut self, who: u32, v: u32, view: View)
        requires who { who < 32 }
        requires v { v < 1024 }
        ensures { self.new.places.now ≡ slice_set self.old.places.now (1024 * who + v) view }
    {
        self.places[1024 * who as usize + v as usize] = view;
    }
}
