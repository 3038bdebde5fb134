// What is lent to a machine, and whether one can be made of it.
ghost use Rattle.std.specs.Prelude.{◌≡◌, MatchResult, nat_lt, ◌&&◌};
ghost use Rattle.std.specs.List.{list_all};
ghost use Rattle.std.specs.IoError.{error_kind};
ghost use Rattle.std.specs.declared.io.ErrorKind.TheVariants.{InvalidInput};
ghost use Rattle.simulator.specs.Fit.{Fit, Misfit};

use crate::cached::{LowerTable, PageEntry, UpperTable};
use crate::devices::Device;
use crate::row::Row;
use crate::spaces::View;
use std::io;

// Words of memory, places of spaces, what the unit keeps at each level and has under way, and rows for the log.
// Who lends them makes each array: they have to lie with the lender, and an array's length is no computed const argument.
#[derive(Drop)]
pub struct Lent<'a> {
    pub memory: &'a mut [u64],
    pub spaces: &'a mut [View],
    pub ups: &'a mut [UpperTable],
    pub mids: &'a mut [LowerTable],
    pub leaves: &'a mut [PageEntry],
    pub flying: &'a mut [PageEntry],
    pub log: &'a mut [Row],
}

// Why no machine can be made of it.
#[derive(Clone, Copy, PartialEq, Eq, Debug)]
pub enum Unfit {
    // memory isn't 64 to 65,536 frames
    Frames,
    // spaces aren't 32 times 1,024 places
    Spaces,
    // more than 32 devices
    Devices,
    // a group or a driver is not below 32
    Numbers,
    // no room for the events of one call
    Log,
    // the keeper wants 65,536 words, and two for each frame
    Room,
}

impl From<Unfit> for io::Error {
    ghost from_gives = { λ _ e. error_kind e ≡ InvalidInput };

    fn from(_e: Unfit) -> io::Error {
        io::Error::from(io::ErrorKind::InvalidInput)
    }
}

// Are all groups and drivers below 32?
fn in_range(devices: &[Device]) -> bool
    ensures { result ≡ list_all (λ d. nat_lt d.group 32 && nat_lt d.driver 32) devices.now }
{
    devices.iter().all(|d| d.group < 32 && d.driver < 32)
}

// Can a machine be made of so many words of memory and of spaces, these devices, and room for so many events in the log?
// If not, the first reason that applies.
pub fn check(memory: usize, spaces: usize, devices: &[Device], log: usize) -> Result<(), Unfit>
    ensures { MatchResult result (λ _. Fit memory spaces devices.now log) (λ e. Misfit e memory spaces devices.now log) }
{
    if memory < 32768 || memory > 33554432 || memory % 512 != 0 {
        return Err(Unfit::Frames);
    }
    if spaces != 32768 {
        return Err(Unfit::Spaces);
    }
    if devices.len() > 32 {
        return Err(Unfit::Devices);
    }
    if !in_range(devices) {
        return Err(Unfit::Numbers);
    }
    if log < 2050 {
        return Err(Unfit::Log);
    }
    Ok(())
}
