// What each macro does, and what a program's steps, runs and costs come to: the table of clauses
// over all groups, the definitions of steps and runs, and their laws.
#![tactic(auto)]

mod laws;

pub use laws::{law_of_runs, law_of_steps, law_of_units};
