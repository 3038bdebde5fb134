// The language of scripts: its lines as a type, read from bytes, and what came of a line as a type, written as text.
// Nothing here knows of the machine that a script is played on.
#![tactic(auto)]

mod fields;
mod forms;
mod input;
mod numbers;
mod outcomes;
mod reader;
#[cfg(test)]
mod tests;
mod words;

pub use fields::Field;
pub use forms::{Line, Request};
pub use input::Lines;
pub use numbers::{NumberError, read_number};
pub use outcomes::Outcome;
pub use reader::read_line;
