// Micro operations, what they do to the state of the abstract machine, and the code that a program
// is expanded into.
#![tactic(auto)]

mod code;
mod laws;
mod op;
mod short;

pub use code::{Code, MAX_CODE_WEIGHT, MAX_PIECE_WEIGHT};
pub use laws::{has_room, law_of_parts, law_of_registers, law_on_ways};
pub use layout_params::Field;
pub use op::{Area, Arith, Fixed, Op, Target, Test, Text, Values};
