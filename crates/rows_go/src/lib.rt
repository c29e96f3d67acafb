// Worked rows of the commands, and what they save.
#![tactic(auto)]

#[cfg(test)]
mod command;
#[cfg(test)]
mod commands;
pub mod go;
#[cfg(test)]
mod saves;
#[cfg(test)]
mod tables;
