// Records written to a stream of bytes.
ghost use Rattle.std.specs.Prelude.{◌≡◌, ◌≢◌, ◌++◌, [], ◌∷◌, Some, true, false, IfSome, IfOk};
ghost use Rattle.std.specs.Io.KnownBytes.{Keeps};
ghost use Rattle.real_units.specs.RecordTexts.{record_text};

use std::alloc::Global;
use std::io;
use std::io::{BufWriter, Write};
use unit_io::UnitAnswer;

/// Writes records, each with an LF. After a failure it fails on.
#[derive(Drop)]
pub struct RecordWriter<W: Write + Drop> {
    output: BufWriter<W>,
    failed: bool,
}

impl<W: Write + Drop> RecordWriter<W> {
    ghost use Rattle.real_units.specs.RecordStreams.{bytes_written, bytes_passed, writer_failed};

    /// A writer behind what is there. The error is want of memory.
    pub fn new(alloc: Global, output: W) -> io::Result<RecordWriter<W>>
        ensures written { IfOk result (λ w. Keeps (W.contents output)
            (bytes_written W.contents w)) }
        ensures failed { IfOk result (λ w. writer_failed w ≡ false) }
    {
        Ok(RecordWriter {
            output: BufWriter::new(alloc, output)?,
            failed: false,
        })
    }

    /// Whether a call has failed.
    pub fn has_failed(&self) -> bool
        ensures { result ≡ writer_failed self.now }
    {
        self.failed
    }

    /// Writes bytes.
    fn put(&mut self, bytes: &[u8]) -> UnitAnswer
        ensures written { result ≡ UnitAnswer.Ok → IfSome (bytes_written W.contents self.old)
            (λ text. bytes_written W.contents self.new ≡ Some (text ++ bytes.now)) }
        ensures failing { writer_failed self.old ≡ true → result ≡ UnitAnswer.Failed }
        ensures failed { result ≡ UnitAnswer.Failed → writer_failed self.new ≡ true }
        ensures memory { result ≢ UnitAnswer.Memory }
    {
        if self.failed {
            return UnitAnswer::Failed;
        }
        match self.output.write_all(bytes) {
            Ok(()) => UnitAnswer::Ok,
            Err(_) => {
                self.failed = true;
                UnitAnswer::Failed
            }
        }
    }

    /// Writes a record.
    pub fn write(&mut self, bytes: &[u8]) -> UnitAnswer
        ensures written { result ≡ UnitAnswer.Ok → IfSome (bytes_written W.contents self.old)
            (λ text. bytes_written W.contents self.new ≡ Some (text ++ record_text bytes.now)) }
        ensures failing { writer_failed self.old ≡ true → result ≡ UnitAnswer.Failed }
        ensures failed { result ≡ UnitAnswer.Failed → writer_failed self.new ≡ true }
        ensures memory { result ≢ UnitAnswer.Memory }
    {
        match self.put(bytes) {
            UnitAnswer::Ok => self.put(b"\n"),
            answer => answer,
        }
    }

    /// Ends a record that stands there without its LF.
    pub fn end_record(&mut self) -> UnitAnswer
        ensures written { result ≡ UnitAnswer.Ok → IfSome (bytes_written W.contents self.old)
            (λ text. bytes_written W.contents self.new ≡ Some (text ++ 10 ∷ [])) }
        ensures failing { writer_failed self.old ≡ true → result ≡ UnitAnswer.Failed }
        ensures failed { result ≡ UnitAnswer.Failed → writer_failed self.new ≡ true }
        ensures memory { result ≢ UnitAnswer.Memory }
    {
        self.put(b"\n")
    }

    /// Passes on all that was written.
    pub fn flush(&mut self) -> UnitAnswer
        ensures passed { result ≡ UnitAnswer.Ok → IfSome (bytes_written W.contents self.old)
            (λ text. bytes_passed W.contents self.new ≡ Some text) }
        ensures written { Keeps (bytes_written W.contents self.old)
            (bytes_written W.contents self.new) }
        ensures failing { writer_failed self.old ≡ true → result ≡ UnitAnswer.Failed }
        ensures failed { result ≡ UnitAnswer.Failed → writer_failed self.new ≡ true }
        ensures memory { result ≢ UnitAnswer.Memory }
    {
        if self.failed {
            return UnitAnswer::Failed;
        }
        match self.output.flush() {
            Ok(()) => UnitAnswer::Ok,
            Err(_) => {
                self.failed = true;
                UnitAnswer::Failed
            }
        }
    }
}
