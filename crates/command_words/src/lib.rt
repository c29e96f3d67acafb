// The words of the commands.
#![tactic(auto)]

mod arguments;
mod laws;
mod names;
mod numbers;
mod orders;
mod parsing;
mod reading;

pub use laws::law_of_words;
pub use names::CommandName;
pub use orders::{Command, DemoNumbers, MAX_DEMO_CARDS, MAX_SEED, SourceFiles, Steps};
pub use reading::read_command;
