// The expansions of the macros on patterns and blocks into micro operations: those that follow
// alternatives, search pairs and copy nodes.
#![tactic(auto)]

mod chains;
mod copies;
mod expansion;
mod operands;
mod pairs;

pub use expansion::{expand_pattern, is_pattern};
