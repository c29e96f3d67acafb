// The expansions of macros that call units into micro operations.
#![tactic(auto)]

mod calls;
mod expansion;
mod formats;
mod moves;
mod operands;
mod output;

pub use expansion::{expand_move, expand_output, is_move, is_output};
