// From the cards of a source to its program.
#![tactic(auto)]

mod built;
mod laws;
mod program;
mod source;
mod specials;
mod statements;
mod tables;

pub use built::{BUILT, is_built};
pub use laws::law_of_programs;
pub use sil_arguments::ProgramStop;
pub use sil_shapes::fits;
pub use source::check_cards;
