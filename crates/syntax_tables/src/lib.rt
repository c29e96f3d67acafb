// Syntax tables: their file, its faults, and the tables of a program.
#![tactic(auto)]

mod binding;
mod class;
mod cutting;
mod place;
mod reading;
mod rule;
mod saying;
mod tables;
mod written;

pub use binding::bind;
pub use reading::{TableStop, read_tables};
pub use written::Written;
