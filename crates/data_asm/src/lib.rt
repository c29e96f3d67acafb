// The static cells of a source.
#![tactic(auto)]

mod assembly;
mod faults;
mod fields;
mod law;
mod source;
mod texts;

pub use assembly::{DataStop, assemble};
pub use fields::first_text;
pub use law::law_of_static_cells;
