// From a program to the micro code that runs as the program does.
#![tactic(auto)]

mod expansion;

pub use expansion::expand_all;
