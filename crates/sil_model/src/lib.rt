// What the abstract machine and the installer both speak of: programs, cells, and the definitions
// of states and of what a step makes of an effect.
#![tactic(auto)]

mod arguments;
mod cells;
mod end;
mod fields;
mod laws;
mod limits;
mod program;
mod specifier;
mod table;
mod words;

pub use arguments::{
    flag, format_text, goto, goto_list, maybe_number, maybe_place, maybe_place_list, number, place,
    place_list,
};
pub use cells::Cells;
pub use end::End;
pub use fields::{a_field, f_field, set_a_field, set_f_field, set_integer, set_v_field, v_field};
pub use laws::law_of_access;
pub use limits::{Limits, limits_of};
pub use program::{Arg, Flow, Program, Specials, Statement};
pub use specifier::{Specifier, set_spec, spec};
pub use table::{Action, Entry, Table};
pub use words::{integer, wrapped_difference, wrapped_product, wrapped_sum};
