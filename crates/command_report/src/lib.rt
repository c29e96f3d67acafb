// How commands end, and what is noted of it.
#![tactic(auto)]

mod ending;
mod lines;
mod notes;

pub use ending::{Ending, Stop, after_finishes};
pub use notes::{note, note_demo, note_ending, note_finishes, note_made, settle};
