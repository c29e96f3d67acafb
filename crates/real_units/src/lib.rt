// Units over the real world: standard input, standard output and files of records.
#![tactic(auto)]

mod faults;
mod file_unit;
mod input_unit;
mod laws;
mod output_unit;
mod record_reader;
mod record_writer;

pub use file_unit::FileUnit;
pub use input_unit::InputUnit;
pub use laws::law_of_records;
pub use output_unit::OutputUnit;
pub use record_reader::RecordReader;
pub use record_writer::RecordWriter;
