// Operand fields of cards: their values, and how they are spelled.
#![tactic(auto)]

mod cutting;
mod expr;
mod expressions;
mod factors;
mod laws;
mod operand;
mod reading;
mod simple;
mod texts;

pub use expr::{Expr, Factor, Term};
pub use laws::{one_value_at_most, what_is_read_is_spelled, what_is_spelled_is_read};
pub use operand::{Operand, OperandFault, Operands};
pub use reading::read_operands;
pub use simple::{are_null, is_null, named_alone};
