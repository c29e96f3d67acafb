// The source that the command `demo` makes.
#![tactic(auto)]

mod cards;
mod source;

pub use source::{demo_params, demo_source};
