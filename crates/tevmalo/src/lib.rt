// The keeper on the simulated machine, for C and Rust: a machine's life at a call, in slices that are lent.
#![tactic(auto)]

pub mod decoded;
pub mod lengths;
pub mod life;
pub mod lines;
pub mod play;
pub mod played;
pub mod reasons;
pub mod rows;
pub mod run;
pub mod said;
pub mod sheet;
pub mod text;
