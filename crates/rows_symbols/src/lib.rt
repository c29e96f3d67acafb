// Worked rows of the values of symbols and of the cells of data.
#![tactic(auto)]

#[cfg(test)]
mod data;
#[cfg(test)]
mod symbols;
