// The expansions of the macros of the stack into micro operations.
#![tactic(auto)]

mod addresses;
mod expansion;
mod heads;
mod moves;
mod specifiers;
mod stack;

pub use addresses::{append_line, append_places};
pub use expansion::{expand_stack, is_stack};
pub use heads::{append_guard, append_up};
pub use moves::{append_gather, append_scatter};
