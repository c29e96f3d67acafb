// Layouts of descriptors, their packing into bytes, and the parameters of an installation.
#![tactic(auto)]

mod candidate;
mod cell;
mod draft;
mod entries;
mod faults;
mod laws;
mod layout;
mod lines;
mod numbers;
mod ordered;
mod packing;
mod params;
mod reading;
mod settings;
mod stop;
mod symbols;

pub use cell::{Cell, Descr, Field};
pub use laws::{
    fields_are_apart, legal_values_break_no_rule, packing_is_packed, standard_text_is_standard,
};
pub use layout::{Layout, Packed16, Wide24};
pub use numbers::Numbers;
pub use packing::{pack_cell, pack_field, unpack_descr};
pub use params::Params;
pub use reading::{STANDARD_PARAMS, read_params};
pub use settings::Settings;
pub use stop::ParamStop;
pub use symbols::ParamSymbols;
