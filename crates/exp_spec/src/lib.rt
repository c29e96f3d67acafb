// The expansions of the macros on specifiers into micro operations.
#![tactic(auto)]

mod blocks;
mod expansion;
mod lengths;
mod operands;
mod specifiers;
mod writes;

pub use expansion::{expand_spec, is_spec};
