// The expansions of jumps, of traps, and of what the stack, the storage and the steps say, into micro operations.
#![tactic(auto)]

mod ends;
mod expansion;
mod jumps;
mod operands;
mod selection;
mod stack;
mod storage;
mod system;

pub use expansion::{expand_control, is_control};
