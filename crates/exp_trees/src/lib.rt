// The expansions of the macros on trees into micro operations.
#![tactic(auto)]

mod expansion;
mod nodes;
mod operands;
mod writes;

pub use expansion::{expand_tree, is_tree};
