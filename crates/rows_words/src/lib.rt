// Worked rows of the words of commands, and of the sources of demos.
#![tactic(auto)]

#[cfg(test)]
mod commands;
#[cfg(test)]
mod demos;
