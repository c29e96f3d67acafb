// Worked rows of instructions: their words, and what each leaves.
#![tactic(auto)]

pub mod code;
#[cfg(test)]
mod results;
#[cfg(test)]
mod words;
