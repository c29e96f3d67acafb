// Worked rows of formats and units.
#![tactic(auto)]

#[cfg(test)]
mod formats;
#[cfg(test)]
mod streams;
#[cfg(test)]
mod units;
