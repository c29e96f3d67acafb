// The macros on specifiers: their clauses, laws of these, and the functions that do them.
#![tactic(auto)]

mod blocks;
mod fields;
mod lengths;
mod specifiers;

pub use blocks::{bksize, getlth};
pub use lengths::{addlg, fshrtn, getlg, putlg, setlc, shortn};
pub use specifiers::{getspc, locsp, putspc, remsp, setsp, subsp};
