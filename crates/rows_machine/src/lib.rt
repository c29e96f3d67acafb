// Worked rows of the abstract machine, and of it and the emulator side by side.
#![tactic(auto)]

#[cfg(test)]
mod agreement;
#[cfg(test)]
mod counts;
#[cfg(test)]
mod machine;
#[cfg(test)]
mod programs;
