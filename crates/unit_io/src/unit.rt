// A unit: a device of records.
ghost use Rattle.std.specs.Prelude.{◌≡◌, ◌≢◌, ◌≤◌, ℕ, Option, Some, IfSome, length};
ghost use Rattle.sil_base.specs.Causes.{Rose};
ghost use Rattle.unit_io.specs.Tapes.{TapeState, unless_fails, forward, rewound, backspaced, ended, finished};
ghost use Rattle.unit_io.specs.Answers.{answer_of, read_answer, read_bytes, ReadFits, Writes, Knows};

use crate::answers::{ReadAnswer, UnitAnswer};
use sil_base::Record;

/// A device that reads and writes records one at a time, at a place that it keeps.
pub trait Unit: Drop {
    /// Its tape, where the unit tells it.
    ghost tape: { Self → Option TapeState };

    /// How often it has failed, a count that never falls.
    ghost faults: { Self → ℕ };

    /// Reads the next record, as far as it fits.
    fn read(&mut self, into: &mut [u8]) -> ReadAnswer
        ensures answer { IfSome (tape self.old) (λ t. result ≡ read_answer t (length into.old)) }
        ensures bytes { IfSome (tape self.old) (λ t. into.new ≡ read_bytes t into.old) }
        ensures tape { IfSome (tape self.old) (λ t. tape self.new ≡ Some (unless_fails t forward)) }
        ensures fits { ReadFits result (length into.old) }
        ensures count { faults self.old ≤ faults self.new }
        ensures failed { result ≡ ReadAnswer.Failed → Rose (faults self.old) (faults self.new) };

    /// Writes a record at the place, and drops those from there on.
    fn write(&mut self, bytes: &[u8]) -> UnitAnswer
        ensures tape { IfSome (tape self.old) (λ t. Writes bytes.now t result (tape self.new)) }
        ensures count { faults self.old ≤ faults self.new }
        ensures failed { result ≡ UnitAnswer.Failed → Rose (faults self.old) (faults self.new) };

    /// Goes to the first record.
    fn rewind(&mut self) -> UnitAnswer
        ensures answer { IfSome (tape self.old) (λ t. result ≡ answer_of t) }
        ensures tape { IfSome (tape self.old) (λ t. tape self.new ≡ Some (unless_fails t rewound)) }
        ensures memory { result ≢ UnitAnswer.Memory }
        ensures count { faults self.old ≤ faults self.new }
        ensures failed { result ≡ UnitAnswer.Failed → Rose (faults self.old) (faults self.new) };

    /// Goes back by one record, if there is one.
    fn backspace(&mut self) -> UnitAnswer
        ensures answer { IfSome (tape self.old) (λ t. result ≡ answer_of t) }
        ensures tape { IfSome (tape self.old)
            (λ t. tape self.new ≡ Some (unless_fails t backspaced)) }
        ensures memory { result ≢ UnitAnswer.Memory }
        ensures count { faults self.old ≤ faults self.new }
        ensures failed { result ≡ UnitAnswer.Failed → Rose (faults self.old) (faults self.new) };

    /// Ends the file: drops the records from the place on.
    fn endfile(&mut self) -> UnitAnswer
        ensures answer { IfSome (tape self.old) (λ t. result ≡ answer_of t) }
        ensures tape { IfSome (tape self.old) (λ t. tape self.new ≡ Some (unless_fails t ended)) }
        ensures memory { result ≢ UnitAnswer.Memory }
        ensures count { faults self.old ≤ faults self.new }
        ensures failed { result ≡ UnitAnswer.Failed → Rose (faults self.old) (faults self.new) };

    /// Asks the device to keep what was written.
    fn finish(&mut self) -> UnitAnswer
        ensures answer { IfSome (tape self.old) (λ t. result ≡ answer_of t) }
        ensures tape { IfSome (tape self.old) (λ t. tape self.new ≡ Some (unless_fails t finished)) }
        ensures memory { result ≢ UnitAnswer.Memory }
        ensures count { faults self.old ≤ faults self.new }
        ensures failed { result ≡ UnitAnswer.Failed → Rose (faults self.old) (faults self.new) };

    /// Its records, where the unit tells its tape.
    fn known(&self) -> Option<&[Record]>
        ensures { Knows (tape self.now) result };
}
