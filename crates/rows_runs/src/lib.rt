// Worked rows of runs of the emulator and of the cells that programs see.
#![tactic(auto)]

#[cfg(test)]
mod accesses;
#[cfg(test)]
mod ends;
#[cfg(test)]
mod model;
#[cfg(test)]
mod units;
