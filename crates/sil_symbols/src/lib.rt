// The symbols of a source: labels, the values of expressions, and the addresses of statements.
#![tactic(auto)]

mod addresses;
mod expressions;
mod faults;
mod labels;
mod laws;
mod names;
mod origin;
mod outcome;
mod part;
mod rules;
mod schedule;
mod settling;
mod stmt;
mod symbols;

pub use laws::{law_of_addresses, law_of_sizes, law_of_values};
pub use stmt::Stmt;
pub use symbols::{SymbolStop, Symbols, resolve};
