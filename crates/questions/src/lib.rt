// The questions of the text program: a line read, and the values kept from line to line.
#![tactic(auto)]

mod question;
mod reading;
mod values;

pub use question::{Fault, Kind, Question};
pub use reading::{Line, take_line, without_return};
pub use values::Values;
