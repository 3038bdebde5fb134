// The room: who has which frame, place, table and device, in words that are lent. It knows nothing of the machine.
#![tactic(auto)]

pub mod address;
pub mod blocks;
pub mod closing;
pub mod devices;
pub mod frames;
pub mod layout;
pub mod loans;
pub mod mapping;
pub mod pages;
pub mod places;
pub mod record;
pub mod registers;
pub mod room;
pub mod searches;
pub mod setup;
pub mod slots;
pub mod sweeps;
pub mod tables;

pub use address::{Address, Slot};
pub use mapping::Mapping;
pub use room::Room;

// A page that is somebody's is with its owner, lent to a device, or on its way back from one.
#[derive(Clone, Copy, PartialEq, Eq, Debug)]
pub enum Loan {
    Home,
    Lent(Mapping),
    Leaving(Mapping),
}

// A device has one upper table, and a lower one for each slot of that which is in use. No Option: None would not say that the upper
// one is a table, too.
#[derive(Clone, Copy, PartialEq, Eq, Debug)]
pub enum Which {
    Upper,
    Lower(u32),
}

// What a frame is used for.
#[derive(Clone, Copy, PartialEq, Eq, Debug)]
pub enum Use {
    House,
    TableOf { device: u32, which: Which },
    Idle,
    PageOf { who: u32, place: u32, loan: Loan },
}

// What a place in a program's address space shows: nothing, the page in a frame, a device's registers.
#[derive(Clone, Copy, PartialEq, Eq, Debug)]
pub enum Place {
    Nothing,
    Page(u32),
    Registers(u32),
}

// A device is shut, open by a program, or closing for the program that had it open.
#[derive(Clone, Copy, PartialEq, Eq, Debug)]
pub enum Device {
    Shut,
    Opened(u32),
    Closing(u32),
}

#[cfg(test)]
mod tests;
