// Why nothing comes of a line, or of an access.
ghost use Rattle.std.specs.Prelude.{◌≡◌};
ghost use Rattle.simulator.specs.Refusals.{refusal_of};
ghost use Rattle.simulator.specs.declared.refused.Refused.TheVariants as refused;

use crate::front::NoRoom;
use script::Outcome;

#[derive(Clone, Copy, PartialEq, Eq, Debug)]
pub enum Refused {
    // a number is out of range
    OutOfRange,
    // the log has no room for the event
    NoRoom,
    // the frame is not in memory
    NoFrame,
    // the entry lets nothing be written
    ReadOnly,
}

impl From<NoRoom> for Refused {
    ghost from_gives = { λ _ e. e ≡ refused.NoRoom };

    fn from(_e: NoRoom) -> Refused {
        Refused::NoRoom
    }
}

impl From<Refused> for Outcome {
    ghost from_gives = { λ e o. o ≡ refusal_of e };

    fn from(e: Refused) -> Outcome {
        match e {
            Refused::OutOfRange => Outcome::No(1),
            Refused::NoRoom | Refused::NoFrame | Refused::ReadOnly => Outcome::Over,
        }
    }
}
