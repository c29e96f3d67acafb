// Worked rows of syntax tables.
#![tactic(auto)]

#[cfg(test)]
mod files;
#[cfg(test)]
mod limits;
#[cfg(test)]
mod texts;
