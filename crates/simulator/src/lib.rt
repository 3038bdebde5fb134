// A machine in memory that plays all the tricks that the unit and devices may play.
#![tactic(auto)]

pub mod board;
pub mod cached;
pub mod devices;
pub mod dice;
pub mod ends;
pub mod events;
pub mod front;
mod kept;
pub mod lent;
pub mod log;
pub mod memory;
pub mod plays;
mod ranges;
pub mod refused;
pub mod replies;
pub mod row;
pub mod sim;
pub mod spaces;
