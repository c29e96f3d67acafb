// The emulator: runs the words of an image over packed bytes.
#![tactic(auto)]

mod access;
mod act;
mod answers;
mod bytes;
mod calls;
mod code;
mod cpu;
mod end;
mod flat;
mod hart;
mod memory;
mod on_units;
mod operands;
mod pieces;
mod run;
mod start;
mod step;
mod storage;
mod values;
mod what;

pub use cpu::Cpu;
pub use end::{CpuEnd, CpuStep};
pub use start::budget;
