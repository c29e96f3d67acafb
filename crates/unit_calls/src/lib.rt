// Calls that a program makes on its units, by their numbers.
#![tactic(auto)]

mod number;
mod printed;

pub use number::unit_number;
pub use printed::{Printed, print};
