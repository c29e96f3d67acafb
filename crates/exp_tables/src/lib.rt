// The expansions of the macros of syntax tables into micro operations.
#![tactic(auto)]

mod changes;
mod expansion;
mod operands;
mod parts;
mod streams;
mod words;

pub use expansion::{expand_table, is_table};
