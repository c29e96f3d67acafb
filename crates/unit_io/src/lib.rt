// Units: numbered devices of records, in boxes that the caller makes.
#![tactic(auto)]

mod answers;
mod moves;
mod slots;
mod tape;
mod unit;
mod unit_in_box;
mod unit_set;
mod units;

pub use answers::{ReadAnswer, UnitAnswer, UnitsAnswer, UnitsRead};
pub use tape::Tape;
pub use unit::Unit;
pub use unit_set::UnitSet;
pub use units::Units;
