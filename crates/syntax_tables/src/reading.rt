// The lines of a tables file, to the first that breaks a rule.
ghost use Rattle.std.specs.Prelude.{◌≡◌, ◌+◌, ◌≤◌, ◌<◌, List, [], ◌∷◌, length, false, IfOk, MatchResult, Ok, Err, Some, None, ℕ};
ghost use Rattle.syntax_tables.specs.TableFiles.{is_skipped, table_fault, written_of, is_free};
ghost use Rattle.syntax_tables.specs.Going.{going_on, Breaks};
ghost use Rattle.syntax_tables.specs.Sayings.{said_in};

use crate::place::{Place, place_after};
use crate::saying::{Said, Saying, read_saying};
use crate::written::Written;
use sil_base::{
    Fault, FaultStop, Items, MAX_FILE_BYTES, TABLES_FILE, cut_line, fault_at, without_end,
};
use sil_operands::OperandFault;
use std::alloc::{AllocError, Global};

/// Why there are no tables: the lines that break a rule, in order; or want of memory.
pub type TableStop = FaultStop;

/// What was read so far: the lines, where the file stands after them, and their number.
#[derive(Drop)]
pub(crate) struct Reader {
    pub lines: Vec<Said>,
    pub place: Place,
    pub number: u32,
}

/// Whether a line is empty or begins with `*`.
fn is_skipped(line: &[u8]) -> bool
    ensures { result ≡ is_skipped line.now }
{
    match line.split_first() {
        Some((first, _)) => *first == b'*',
        None => true,
    }
}

/// The stop at a line that breaks a rule.
fn broken(alloc: Global, number: u32, rule: u8) -> TableStop
    ensures { Breaks number rule result }
{
    let mut faults = Vec::new(alloc);
    match faults.push(fault_at(TABLES_FILE, b'T', number, rule)) {
        Ok(()) => FaultStop::Faults(Items::of(faults)),
        Err(_) => FaultStop::Memory,
    }
}

/// What a line says, or the stop at a line of no form.
fn saying_of(alloc: Global, line: &[u8], number: u32) -> Result<Saying, TableStop>
    ensures { MatchResult result
        (λ saying. said_in line.now ≡ Some saying)
        (λ e. is_free e ≡ false → (said_in line.now ≡ None) × (e ≡ FaultStop.Faults (table_fault number 1 ∷ []))) }
{
    match read_saying(alloc, line) {
        Ok(saying) => Ok(saying),
        Err(OperandFault::Bad) => Err(broken(alloc, number, 1)),
        Err(OperandFault::Memory) => Err(FaultStop::Memory),
    }
}

impl Reader {
    /// Reads a line.
    fn take_line(self, alloc: Global, line: &[u8]) -> Result<Reader, TableStop>
        requires { self.number < 4294967295 }
        ensures read { (lines : List (List ℕ)) → MatchResult result
            (λ r. going_on self (line.now ∷ lines) ≡ going_on r lines)
            (λ e. is_free e ≡ false → going_on self (line.now ∷ lines) ≡ Err e) }
        ensures number { IfOk result (λ r. r.number ≡ self.number + 1) }
    {
        let Reader {
            mut lines,
            place,
            number,
        } = self;
        if is_skipped(line) {
            return Ok(Reader {
                lines,
                place,
                number: number + 1,
            });
        }
        let saying = saying_of(alloc, line, number)?;
        let Some(place) = place_after(alloc, place, &saying)? else {
            return Err(broken(alloc, number, 2));
        };
        lines.push(Said {
            line: number,
            saying,
        })?;
        Ok(Reader {
            lines,
            place,
            number: number + 1,
        })
    }

    /// What is written, where the file ends between tables.
    fn finish(self, alloc: Global) -> Result<Written, TableStop>
        ensures { MatchResult result
            (λ w. going_on self [] ≡ Ok w)
            (λ e. is_free e ≡ false → going_on self [] ≡ Err e) }
    {
        let Reader {
            lines,
            place,
            number,
        } = self;
        match place {
            Place::Between => Ok(Written::of(alloc, lines)?),
            Place::Within(_) | Place::Closing(_) => Err(broken(alloc, number, 2)),
        }
    }
}

/// The lines of a tables file, to be bound. The file is read to the first line that breaks a rule,
/// which is then its only fault: T1 where the line is of no form, T2 where no table allows it
/// there, or the file ends within a table.
pub fn read_tables(alloc: Global, bytes: &[u8]) -> Result<Written, TableStop>
    requires { length bytes.now ≤ MAX_FILE_BYTES }
    ensures { MatchResult result
        (λ w. written_of bytes.now ≡ Ok w)
        (λ e. is_free e ≡ false → written_of bytes.now ≡ Err e) }
{
    let mut reader = Reader {
        lines: Vec::new(alloc),
        place: Place::Between,
        number: 1,
    };
    let mut rest = bytes;
    while let Some((line, more)) = cut_line(rest) {
        reader = reader.take_line(alloc, without_end(line))?;
        rest = more;
    }
    reader.finish(alloc)
}
