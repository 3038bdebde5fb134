// Where a device is to see a page: the device, the page of its own address space, and whether it may write there.
ghost use Rattle.std.specs.Prelude.{◌≡◌, ◌/◌, ◌%◌, ◌<◌};

use crate::Slot;

#[derive(Clone, Copy, PartialEq, Eq, Debug)]
pub struct Mapping {
    pub device: u32,
    pub page: u32,
    pub writes: bool,
}

impl Mapping {
    // The slot of the device's upper table at which the lower table of the page is noted.
    pub fn slot(self) -> Slot
        requires device { self.device < 32 }
        requires page { self.page < 262144 }
        ensures device { result.device ≡ self.device }
        ensures index { result.index ≡ self.page / 512 }
    {
        Slot {
            device: self.device,
            index: self.page / 512,
        }
    }

    // The word of that lower table that has the entry of the page.
    pub fn word(self) -> u32
        ensures { result ≡ self.page % 512 }
    {
        self.page % 512
    }
}
