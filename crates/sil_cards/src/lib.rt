// The cards of a source, with those of the files that it copies.
#![tactic(auto)]

mod card;
mod fields;
mod laws;
mod reader;
mod reading;
mod stop;
mod verdict;

pub use card::{Card, CardContents};
pub use laws::law_of_lines;
pub use reading::read_cards;
pub use stop::CardStop;
