// A stream of records that are written, such as standard output.
ghost use Rattle.std.specs.Prelude.{None};

use crate::faults::{count_call, count_read};
use crate::record_writer::RecordWriter;
use sil_base::Record;
use std::alloc::Global;
use std::io;
use std::io::Write;
use unit_io::{ReadAnswer, Unit, UnitAnswer};

/// A unit that is written, each record as it comes. Reads, rewinds and backspaces fail.
#[derive(Drop)]
pub struct OutputUnit<W: Write + Drop> {
    records: RecordWriter<W>,
    faults: u64,
}

impl<W: Write + Drop> OutputUnit<W> {
    /// A unit on a stream. The error is want of memory.
    pub fn new(alloc: Global, output: W) -> io::Result<OutputUnit<W>> {
        Ok(OutputUnit {
            records: RecordWriter::new(alloc, output)?,
            faults: 0,
        })
    }
}

impl<W: Write + Drop> Unit for OutputUnit<W> {
    ghost tape = { λ _. None };

    ghost faults = { λ u. u.faults };

    fn read(&mut self, _into: &mut [u8]) -> ReadAnswer {
        count_read(&mut self.faults, ReadAnswer::Failed)
    }

    fn write(&mut self, bytes: &[u8]) -> UnitAnswer {
        let answer = match self.records.write(bytes) {
            UnitAnswer::Ok => self.records.flush(),
            answer => answer,
        };
        count_call(&mut self.faults, answer)
    }

    fn rewind(&mut self) -> UnitAnswer {
        count_call(&mut self.faults, UnitAnswer::Failed)
    }

    fn backspace(&mut self) -> UnitAnswer {
        count_call(&mut self.faults, UnitAnswer::Failed)
    }

    fn endfile(&mut self) -> UnitAnswer {
        let answer = self.records.flush();
        count_call(&mut self.faults, answer)
    }

    fn finish(&mut self) -> UnitAnswer {
        let answer = self.records.flush();
        count_call(&mut self.faults, answer)
    }

    fn known(&self) -> Option<&[Record]> {
        None
    }
}
