// The macros of syntax tables: their clauses, laws of these, and the functions that do them.
#![tactic(auto)]

mod changes;
mod operands;
mod streams;
mod tables;

pub use changes::{clertb, plugtb};
pub use streams::stream;
pub use tables::Tables;
