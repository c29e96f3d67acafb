// The expansions of the macros of descriptors into micro operations.
#![tactic(auto)]

mod descriptors;
mod expansion;
mod operands;

pub use expansion::expand_descr;
