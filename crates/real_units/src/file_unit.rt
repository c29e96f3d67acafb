// A file of records.
ghost use Rattle.std.specs.Prelude.{◌≡◌, ◌≢◌, ◌≤◌, None};
ghost use Rattle.sil_base.specs.Causes.{Rose};

use crate::faults::{count_call, count_read};
use crate::record_reader::RecordReader;
use crate::record_writer::RecordWriter;
use sil_base::Record;
use std::alloc::{AllocError, Global};
use std::fs::{File, OpenFile, OpenOptions};
use std::io;
use std::io::{Read, Write};
use std::rt::Files;
use unit_io::{ReadAnswer, Unit, UnitAnswer};

/// How a file stands: not open, at its first record, or open for reading or for writing.
#[derive(Drop)]
enum Standing<F: Read + Write + Drop> {
    Closed,
    Reading(RecordReader<F>),
    Writing(RecordWriter<F>),
}

/// The file `unit.n`. It is opened by the first call that reads or writes it, and again by the first
/// after a rewind. Backspaces fail.
#[derive(Drop)]
pub struct FileUnit<R: Files> {
    rt: R,
    alloc: Global,
    name: String,
    file: Standing<R::File>,
    faults: u64,
}

impl<R: Files + Drop> FileUnit<R> {
    /// The file of unit n, which nothing has opened yet.
    pub fn new(rt: R, alloc: Global, n: u32) -> Result<FileUnit<R>, AllocError> {
        Ok(FileUnit {
            rt,
            alloc,
            name: format!(in alloc; "unit.{n}")?,
            file: Standing::Closed,
            faults: 0,
        })
    }

    /// Opens the file at its first record.
    fn open_to_read(&self) -> io::Result<RecordReader<R::File>> {
        RecordReader::new(self.alloc, File::open(&self.rt, self.name.as_str())?)
    }

    /// Makes the file anew.
    fn make_anew(&self) -> io::Result<RecordWriter<R::File>> {
        RecordWriter::new(self.alloc, File::create(&self.rt, self.name.as_str())?)
    }

    /// Opens the file behind the records that were read, and drops those that follow.
    fn open_behind(&self, records: &RecordReader<R::File>) -> io::Result<RecordWriter<R::File>> {
        let mut options = OpenOptions::new();
        let _ = options.append(true);
        let file = options.open(&self.rt, self.name.as_str())?;
        file.set_len(records.place())?;
        let mut writer = RecordWriter::new(self.alloc, file)?;
        if records.is_unended() {
            let _ = writer.end_record();
        }
        Ok(writer)
    }

    /// Writes a record where the file is open for it, and fails elsewhere.
    fn write_on(&mut self, bytes: &[u8]) -> UnitAnswer
        ensures count { self.old.faults ≤ self.new.faults }
        ensures failed { result ≡ UnitAnswer.Failed → Rose self.old.faults self.new.faults }
    {
        let answer = match &mut self.file {
            Standing::Writing(records) => records.write(bytes),
            Standing::Closed | Standing::Reading(_) => UnitAnswer::Failed,
        };
        count_call(&mut self.faults, answer)
    }

    /// Passes on to the file what was written.
    fn pass_on(&mut self) -> UnitAnswer
        ensures faults { self.new.faults ≡ self.old.faults }
        ensures memory { result ≢ UnitAnswer.Memory }
    {
        match &mut self.file {
            Standing::Writing(records) => records.flush(),
            Standing::Closed | Standing::Reading(_) => UnitAnswer::Ok,
        }
    }
}

impl<R: Files + Drop> Unit for FileUnit<R> {
    ghost tape = { λ _. None };

    ghost faults = { λ u. u.faults };

    fn read(&mut self, into: &mut [u8]) -> ReadAnswer {
        if let Standing::Closed = &self.file {
            match self.open_to_read() {
                Ok(records) => self.file = Standing::Reading(records),
                Err(_) => return count_read(&mut self.faults, ReadAnswer::Failed),
            }
        }
        let answer = match &mut self.file {
            Standing::Reading(records) => records.read(into),
            Standing::Writing(records) if records.has_failed() => ReadAnswer::Failed,
            Standing::Writing(_) | Standing::Closed => ReadAnswer::End,
        };
        count_read(&mut self.faults, answer)
    }

    fn write(&mut self, bytes: &[u8]) -> UnitAnswer {
        let opened = match &self.file {
            Standing::Closed => self.make_anew(),
            Standing::Reading(records) if !records.has_failed() => self.open_behind(records),
            Standing::Reading(_) | Standing::Writing(_) => return self.write_on(bytes),
        };
        match opened {
            Ok(records) => {
                self.file = Standing::Writing(records);
                self.write_on(bytes)
            }
            Err(_) => count_call(&mut self.faults, UnitAnswer::Failed),
        }
    }

    fn rewind(&mut self) -> UnitAnswer {
        let answer = self.pass_on();
        self.file = Standing::Closed;
        count_call(&mut self.faults, answer)
    }

    fn backspace(&mut self) -> UnitAnswer {
        count_call(&mut self.faults, UnitAnswer::Failed)
    }

    fn endfile(&mut self) -> UnitAnswer {
        let answer = self.pass_on();
        count_call(&mut self.faults, answer)
    }

    fn finish(&mut self) -> UnitAnswer {
        let answer = self.pass_on();
        count_call(&mut self.faults, answer)
    }

    fn known(&self) -> Option<&[Record]> {
        None
    }
}
