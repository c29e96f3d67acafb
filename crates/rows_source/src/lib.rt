// Worked rows of what reads and checks a source: files, cards, formats and programs.
#![tactic(auto)]

#[cfg(test)]
mod cards;
#[cfg(test)]
mod check;
#[cfg(test)]
mod files;
#[cfg(test)]
mod formats;
pub mod texts;
