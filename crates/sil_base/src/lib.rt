// What every crate of the installation stands on: records, lines and faults, the sink for notes and the store of files.
#![tactic(auto)]

mod decimals;
mod fault_stop;
mod items;
mod limits;
mod line;
mod loading;
mod memory_sink;
mod memory_store;
mod names;
mod places;
mod record;
mod sink;
mod store;
mod text_lines;
mod words;

pub use decimals::decimal;
pub use fault_stop::FaultStop;
pub use items::Items;
pub use limits::{
    MAX_CARDS, MAX_CELLS, MAX_CONSTANT_BYTES, MAX_FILE_BYTES, MAX_FORMAT_BYTES, MAX_LIST_ITEMS,
    MAX_STATEMENTS, MAX_STEPS, MAX_TABLES, MAX_VALUE_CHARACTERS, MAX_WORDS, SCRATCH_BYTES,
    STATEMENT_INSTRUCTIONS, TABLE_BYTES, VISIT_INSTRUCTIONS,
};
pub use line::{Fault, FaultCode, Line, PARAMETER_FILE, SOURCE_FILE, TABLES_FILE, fault_at};
pub use loading::{LoadStop, load_file};
pub use memory_sink::MemorySink;
pub use memory_store::MemoryStore;
pub use names::{digits_value, is_name, is_number};
pub use places::{
    FIRST_CELL, FIRST_CONSTANT, FIRST_ENTRY, FIRST_KIND, FIRST_SCRATCH, FIRST_TABLE, FIRST_WORD,
};
pub use record::Record;
pub use sink::{Put, Sink};
pub use store::{Load, Save, Store};
pub use text_lines::{cut_line, without_end};
pub use words::{index_of, index_of_byte, is_one_of};
