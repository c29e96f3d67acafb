// The operands of executable statements, as the machine takes them.
#![tactic(auto)]

mod arguments;
mod bound;
mod lists;
mod stop;

pub use arguments::{args_of, rest_of};
pub use bound::BoundSource;
pub use stop::ProgramStop;
