// The macros on trees, patterns and blocks: their clauses, laws of these, and the functions that do
// them.
#![tactic(auto)]

mod blocks;
mod copies;
mod patterns;
mod powers;
mod searches;
mod trees;
mod turns;

pub use blocks::movblk;
pub use copies::cpypat;
pub use patterns::{linkor, locapt, locapv, lvalue, top};
pub use powers::expint;
pub use trees::{addsib, addson, insert, maknod};
pub use turns::{Copying, Lowest, Offsets};
