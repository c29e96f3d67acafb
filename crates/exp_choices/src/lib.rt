// The expansions of the macros that compare, and of those on integers, into micro operations.
#![tactic(auto)]

mod comparisons;
mod expansion;
mod integers;
mod operands;

pub use expansion::{expand_choice, is_choice};
