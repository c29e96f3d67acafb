// Calls on units by their numbers.
ghost use Rattle.std.specs.Prelude.{◌≡◌, ◌≢◌, ℕ, true, length};
ghost use Rattle.unit_io.specs.Tapes.{all_told, failed_finishes, finished_tapes, rewound, backspaced, ended};
ghost use Rattle.unit_io.specs.Units.{AllUnits, tapes_of, RoseAt, KeepsCounts, FinishesAll};
ghost use Rattle.unit_io.specs.Calls.{ChangesUnit, Moves, Reads, UnitsReadFits, WritesAll};

use crate::answers::{UnitsAnswer, UnitsRead};
use sil_base::Record;

/// Numbered units, whatever keeps them. A number outside 1 to 15 is that of an absent unit.
pub trait UnitSet {
    /// The units, in the order of their numbers from 1 to 15.
    ghost seen: { Self → AllUnits };

    /// What keeps the units has all but this one as they were.
    ghost keeps: { ℕ → Self → Self → Type 0 };

    /// Reads the next record of unit n, as far as it fits.
    fn read(&mut self, n: u32, into: &mut [u8]) -> UnitsRead
        ensures tapes { Reads n (tapes_of (seen self.old)) (tapes_of (seen self.new)) result
            into.old into.new }
        ensures fits { UnitsReadFits result (length into.old) }
        ensures failed { result ≡ UnitsRead.Failed → RoseAt n (seen self.old) (seen self.new) }
        ensures counts { KeepsCounts (seen self.old) (seen self.new) }
        ensures units { ChangesUnit n (seen self.old) (seen self.new) }
        ensures keeps { keeps n self.old self.new };

    /// Writes records on unit n, in order up to the first that isn't written.
    fn write_all(&mut self, n: u32, records: &[Record]) -> UnitsAnswer
        ensures tapes { WritesAll records.now n (tapes_of (seen self.old))
            (tapes_of (seen self.new)) result }
        ensures failed { result ≡ UnitsAnswer.Failed → RoseAt n (seen self.old) (seen self.new) }
        ensures counts { KeepsCounts (seen self.old) (seen self.new) }
        ensures units { ChangesUnit n (seen self.old) (seen self.new) }
        ensures keeps { keeps n self.old self.new };

    /// Goes to the first record of unit n.
    fn rewind(&mut self, n: u32) -> UnitsAnswer
        ensures tapes { Moves rewound n (tapes_of (seen self.old)) (tapes_of (seen self.new)) result }
        ensures memory { result ≢ UnitsAnswer.Memory }
        ensures failed { result ≡ UnitsAnswer.Failed → RoseAt n (seen self.old) (seen self.new) }
        ensures counts { KeepsCounts (seen self.old) (seen self.new) }
        ensures units { ChangesUnit n (seen self.old) (seen self.new) }
        ensures keeps { keeps n self.old self.new };

    /// Goes back by one record on unit n, if there is one.
    fn backspace(&mut self, n: u32) -> UnitsAnswer
        ensures tapes { Moves backspaced n (tapes_of (seen self.old)) (tapes_of (seen self.new))
            result }
        ensures memory { result ≢ UnitsAnswer.Memory }
        ensures failed { result ≡ UnitsAnswer.Failed → RoseAt n (seen self.old) (seen self.new) }
        ensures counts { KeepsCounts (seen self.old) (seen self.new) }
        ensures units { ChangesUnit n (seen self.old) (seen self.new) }
        ensures keeps { keeps n self.old self.new };

    /// Ends the file on unit n: drops its records from the place on.
    fn endfile(&mut self, n: u32) -> UnitsAnswer
        ensures tapes { Moves ended n (tapes_of (seen self.old)) (tapes_of (seen self.new)) result }
        ensures memory { result ≢ UnitsAnswer.Memory }
        ensures failed { result ≡ UnitsAnswer.Failed → RoseAt n (seen self.old) (seen self.new) }
        ensures counts { KeepsCounts (seen self.old) (seen self.new) }
        ensures units { ChangesUnit n (seen self.old) (seen self.new) }
        ensures keeps { keeps n self.old self.new };

    /// Finishes each unit once, in the order of their numbers, and answers how many failed.
    fn finish_all(&mut self) -> u32
        ensures units { FinishesAll (seen self.old) (seen self.new) result }
        ensures counts { KeepsCounts (seen self.old) (seen self.new) }
        ensures told { all_told (tapes_of (seen self.old)) ≡ true →
            (result ≡ failed_finishes (tapes_of (seen self.old)))
            × (tapes_of (seen self.new) ≡ finished_tapes (tapes_of (seen self.old))) };
}
