// Worked rows of records, stores, macros, operands, parameters and packing.
#![tactic(auto)]

#[cfg(test)]
mod base;
#[cfg(test)]
mod macros;
#[cfg(test)]
mod operands;
#[cfg(test)]
mod packing;
#[cfg(test)]
mod params;
