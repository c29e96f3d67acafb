// The macros on descriptors: their clauses, laws of these, and the functions that do them.
#![tactic(auto)]

mod descriptors;
mod words;

pub use descriptors::{
    adjust, decra, getac, getd, getdc, getsiz, incra, incrv, mova, movd, movdic, movv, putac, putd,
    putdc, putvc, resetf, rsetfi, setac, setav, setf, setfi, setsiz, setva, setvc,
};
