// The words of operations of micro code, and what they do on the emulator.
#![tactic(auto)]

mod calling;
mod cells;
mod flow;
mod laws;
mod op;
mod places;
mod registers;
mod units;
mod words;

pub use laws::{
    law_of_cells, law_of_characters, law_of_entries, law_of_fields, law_of_jumps, law_of_lengths,
    law_of_op_words, law_of_ops, law_of_registers, law_of_scratch, law_of_state, law_of_statements,
    law_of_tables, law_of_units, law_of_words,
};
pub use op::append_op;
pub use places::{Links, Routines, Site};
