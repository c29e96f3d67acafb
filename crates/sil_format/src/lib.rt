// Formats, and the records that they lay out.
#![tactic(auto)]

mod cutting;
mod fields;
mod format;
mod laws;
mod laying;
mod reading;
mod sheet;
mod value;

pub use format::{DataKind, Format, FormatStop, Item};
pub use laws::{
    law_of_formats, one_format_at_most, passes_are_enough, what_is_read_is_spelled,
    what_is_spelled_is_read,
};
pub use laying::lay_out;
pub use reading::{is_format, read_format};
pub use value::{Laid, Value};
