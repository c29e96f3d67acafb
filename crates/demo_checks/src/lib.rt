// What the check says of demos.
#![tactic(auto)]

mod laws;

pub use laws::{law_of_demo_cards, law_of_demos};
