// A stream of records that are read, such as standard input.
ghost use Rattle.std.specs.Prelude.{None};

use crate::faults::{count_call, count_read};
use crate::record_reader::RecordReader;
use sil_base::Record;
use std::alloc::Global;
use std::io;
use std::io::Read;
use unit_io::{ReadAnswer, Unit, UnitAnswer};

/// A unit that is read once, from front to end. Writes, rewinds and backspaces fail.
#[derive(Drop)]
pub struct InputUnit<R> {
    records: RecordReader<R>,
    faults: u64,
}

impl<R: Read + Drop> InputUnit<R> {
    /// A unit on a stream. The error is want of memory.
    pub fn new(alloc: Global, input: R) -> io::Result<InputUnit<R>> {
        Ok(InputUnit {
            records: RecordReader::new(alloc, input)?,
            faults: 0,
        })
    }
}

impl<R: Read + Drop> Unit for InputUnit<R> {
    ghost tape = { λ _. None };

    ghost faults = { λ u. u.faults };

    fn read(&mut self, into: &mut [u8]) -> ReadAnswer {
        let answer = self.records.read(into);
        count_read(&mut self.faults, answer)
    }

    fn write(&mut self, _bytes: &[u8]) -> UnitAnswer {
        count_call(&mut self.faults, UnitAnswer::Failed)
    }

    fn rewind(&mut self) -> UnitAnswer {
        count_call(&mut self.faults, UnitAnswer::Failed)
    }

    fn backspace(&mut self) -> UnitAnswer {
        count_call(&mut self.faults, UnitAnswer::Failed)
    }

    fn endfile(&mut self) -> UnitAnswer {
        UnitAnswer::Ok
    }

    fn finish(&mut self) -> UnitAnswer {
        UnitAnswer::Ok
    }

    fn known(&self) -> Option<&[Record]> {
        None
    }
}
