// The expansions of the macros that walk characters into micro operations.
#![tactic(auto)]

mod copies;
mod expansion;
mod integers;
mod operands;
mod parts;
mod scans;

pub use expansion::{expand_string, is_string};
pub use parts::{append_first, append_keep_second, append_length, append_start};
