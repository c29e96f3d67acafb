// The macros that read a record into characters, or write characters as records: their clauses, and
// laws of these.
#![tactic(auto)]

mod reading;

pub use reading::{Reading, what_is_read};
