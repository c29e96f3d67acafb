// What the groups of expanders share: where locations lead, what lists keep to, and lemmas on what
// is read and on parts that are put together.
#![tactic(auto)]

mod locations;

pub use locations::{ByAnswer, ByOrder, lead};
