// The expansions of the macros of flow into micro operations.
#![tactic(auto)]

mod ends;
mod expansion;

pub use expansion::{expand_flow, is_flow};
