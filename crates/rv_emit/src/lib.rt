// From micro code to the words of RV64IM.
#![tactic(auto)]

mod emitted;
mod front;
mod law;
mod links;
mod operations;
mod plan;
mod switches;

pub use emitted::{Emitted, emit};
pub use law::law_of_emission;
