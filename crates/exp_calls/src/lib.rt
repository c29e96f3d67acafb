// The expansions of calls and returns into micro operations.
#![tactic(auto)]

mod answers;
mod calls;
mod expansion;
mod frames;
mod operands;
mod returns;

pub use expansion::{expand_call, is_call};
pub use returns::{expand_return, is_return};
