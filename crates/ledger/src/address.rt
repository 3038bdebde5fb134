// Where something stands: a place of a program's address space, a slot of a device's upper table.
ghost use Rattle.std.specs.Prelude.{◌<◌};

// A program, a device, a frame, a page or a word alone is a number: so it comes from a call or the machine, and a type would have each
// call wrap it and each clause unwrap it.

// Place v of program `who`.
#[derive(Clone, Copy)]
pub struct Address {
    pub who: u32,
    pub v: u32,
    pub ghost program: { who < 32 },
    pub ghost place: { v < 1024 },
}

// A slot of the upper table of a device; it stands for 512 pages of that device.
#[derive(Clone, Copy)]
pub struct Slot {
    pub device: u32,
    pub index: u32,
    pub ghost known: { device < 32 },
    pub ghost within: { index < 512 },
}
