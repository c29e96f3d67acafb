// The macros of SIL: their names, their numbers and the shapes of their operands.
#![tactic(auto)]

mod laws;
mod lookup;
mod names;
mod operands;
mod shapes;

pub use laws::law_of_macros;
pub use lookup::{macro_at, macro_of};
pub use names::{Macro, is_assembly, name_of, number_of_macro};
pub use operands::shape;
pub use shapes::{Kind, Place, Shape};
