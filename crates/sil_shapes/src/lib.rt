// Which operands statements take: the shapes of macros, locations, flags and formats.
#![tactic(auto)]

mod faults;
mod locations;
mod resolution;
mod rules;
mod shapes;

pub use faults::statement_faults;
pub use locations::{number_within, statement_at};
pub use resolution::Resolution;
pub use shapes::fits;
