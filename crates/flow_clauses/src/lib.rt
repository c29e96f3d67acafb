// What the macros of flow and of the stack do to cells: one function for each macro that looks at
// its operands and the memory alone, and the work on lists of places.
#![tactic(auto)]

mod flow;
mod frames;
mod lists;
mod specifiers;
mod stack;

pub use flow::{branch, endex, hand_back, load, nth_location, selbra};
pub use frames::write_frame;
pub use lists::{carry, read_all, read_values};
pub use specifiers::carry_specs;
pub use stack::{above, below, cells_above, cells_below, specs_above, specs_below};
