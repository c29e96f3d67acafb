//! Instructions of RV64I and M and the 32-bit words that hold them, by the formats of the RISC-V unprivileged manual.
#![tactic(auto)]

mod decoding;
mod encoding;
mod fields;
mod immediates;
mod instr;
pub mod laws;
mod parts;
mod rows;

pub use decoding::decode;
pub use encoding::encode;
pub use instr::{BOp, IOp, Instr, ROp, SOp, UOp};
