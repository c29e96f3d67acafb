// The expansion of the macro that raises an integer to a power into micro operations.
#![tactic(auto)]

mod expansion;
mod operands;
mod powers;

pub use expansion::{expand_power, is_power};
