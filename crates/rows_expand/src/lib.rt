// Programs and their micro code.
#![tactic(auto)]

#[cfg(test)]
mod codes;
mod sources;

pub use sources::code_of;
