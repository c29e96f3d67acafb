// The abstract machine: what each macro does, steps, and runs.
#![tactic(auto)]

mod calls;
mod dispatch;
mod machine;
mod parts;
mod places;
mod simulation;
mod site;
mod stack;
mod state;
mod system;
mod units;
mod walks;

pub use machine::{Machine, Step, start};
pub use sil_model::{
    Action, Arg, Cells, End, Entry, Flow, Limits, Program, Specials, Statement, Table,
};
pub use simulation::sim;
