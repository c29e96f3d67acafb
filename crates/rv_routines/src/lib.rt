// The shared routines of emitted code, and what they test.
#![tactic(auto)]

mod chars;
mod check;
mod fields;
mod kinds;
mod laws;
mod numbers;
mod open_cell;
mod stores;

pub use chars::{append_make, append_word, char_routine};
pub use check::{append_fit, check_routine};
pub use fields::{bits_of, descr_of, load_op, place_of, small, store_op, width_of};
pub use kinds::append_kind;
pub use laws::{law_of_characters, law_of_checks, law_of_numbers};
pub use numbers::{below_routine, state_routine};
pub use open_cell::open_routine;
