// The macros that compare and those on integers: their clauses, laws of these, and the functions
// that do them.
#![tactic(auto)]

mod choices;
mod comparisons;
mod integers;
mod results;
mod words;

pub use comparisons::{
    acomp, acompc, aeql, aeqlc, aeqlic, chkval, deql, lcomp, leqlc, testf, testfi, vcmpic, veql,
    veqlc,
};
pub use integers::{divide, mnsint, mult, multc, subtrt, sum};
