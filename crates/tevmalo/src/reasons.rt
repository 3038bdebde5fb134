// Why nothing is played, as a number.
ghost use Rattle.std.specs.Prelude.{◌≡◌};
ghost use Rattle.tevmalo.specs.Reasons.{number_of, Reason};

use crate::lengths::Lengths;
use simulator::devices::Device;
use simulator::lent::{Unfit, check};

// 32 programs have 1,024 places each.
pub const SPACES: usize = 32 * 1024;

// 0 where all is in range.
pub fn reason(devices: &[Device], lengths: Lengths) -> u32
    ensures { Reason lengths devices.now result }
{
    if let Err(unfit) = check(lengths.memory, SPACES, devices, lengths.log) {
        return number(unfit);
    }
    if lengths.room < 65536 + lengths.memory / 256 {
        return 5;
    }
    if lengths.said < lengths.lines {
        return 6;
    }
    0
}

// 6 is for what is said, which is no part of a machine.
fn number(unfit: Unfit) -> u32
    ensures { result ≡ number_of unfit }
{
    match unfit {
        Unfit::Frames => 1,
        Unfit::Devices => 2,
        Unfit::Numbers => 3,
        Unfit::Log => 4,
        Unfit::Room => 5,
        Unfit::Spaces => 7,
    }
}
