// The expansions of the macros on blocks into micro operations.
#![tactic(auto)]

mod expansion;
mod moves;
mod operands;
mod titles;

pub use expansion::{expand_block, is_block};
