// The macros that walk characters: their clauses, laws of these, and the functions that do them.
#![tactic(auto)]

mod characters;
mod copies;
mod integers;
mod scans;

pub use characters::{first, length, second, write_chars};
pub use copies::{apdsp, date, rplace};
pub use integers::{intspc, spcint};
pub use scans::{getbal, lexcmp, trimsp, varid};
