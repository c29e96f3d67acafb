// Instructions that are shared by all emitted code: constants, jumps and calls, and the laws of
// code without branches.
#![tactic(auto)]

mod constants;
mod instrs;
mod jumps;
mod laws;
mod words;

pub use constants::{append_constant, lower, upper};
pub use instrs::{branch, immediate, operate, store, upper_part};
pub use jumps::{far_lower, far_upper, inverse, jump_if, leap};
pub use laws::{
    law_of_constants, law_of_effects, law_of_jumps, law_of_straight_code, law_of_words,
};
pub use words::append_words;
