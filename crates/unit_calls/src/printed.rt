// Values that are printed on a unit by a format.
ghost use Rattle.std.specs.Prelude.{◌≡◌};
ghost use Rattle.unit_io.specs.Units.{RoseAt, KeepsCounts, tapes_of};
ghost use Rattle.unit_io.specs.Calls.{ChangesUnit};
ghost use Rattle.unit_io.specs.Numbered.{unit_at};
ghost use Rattle.unit_calls.specs.Printing.{IfThere, Prints, printed_by};

use sil_format::{FormatStop, Laid, Value, lay_out, read_format};
use std::alloc::Global;
use unit_io::{UnitSet, UnitsAnswer};

/// What a call that prints answers: all records were written; a write failed; the text is no format,
/// or it doesn't fit the values; a value meets an F item; no unit has the number; or there was no
/// memory.
#[derive(Clone, Copy, PartialEq, Eq, Debug)]
pub enum Printed {
    Done,
    Failed,
    Unfit,
    Real,
    Absent,
    Memory,
}

/// Prints values on unit n by a format's text. An absent unit comes first, then a text that is no
/// format, then values that it can't lay out; all records are laid out before the first is written.
pub fn print<U: UnitSet>(
    alloc: Global,
    units: &mut U,
    n: u32,
    text: &[u8],
    values: &[Value],
) -> Printed
    ensures tapes { Prints text.now values.now n (tapes_of (U.seen units.old))
        (tapes_of (U.seen units.new)) result }
    ensures failed { result ≡ Printed.Failed → RoseAt n (U.seen units.old) (U.seen units.new) }
    ensures counts { KeepsCounts (U.seen units.old) (U.seen units.new) }
    ensures units { ChangesUnit n (U.seen units.old) (U.seen units.new) }
{
    match units.write_all(n, &[]) {
        UnitsAnswer::Absent => Printed::Absent,
        UnitsAnswer::Memory => Printed::Memory,
        UnitsAnswer::Failed => Printed::Failed,
        UnitsAnswer::Ok => print_there(alloc, units, n, text, values),
    }
}

/// Prints values on unit n, which is there.
#[tactic(auto, using(crate::proofs::UnitChanges::counts_same, crate::proofs::UnitChanges::changes_same, crate::proofs::PrintLemmas::no_memory))]
fn print_there<U: UnitSet>(
    alloc: Global,
    units: &mut U,
    n: u32,
    text: &[u8],
    values: &[Value],
) -> Printed
    ensures tapes { IfThere (unit_at (tapes_of (U.seen units.old)) n) (Prints text.now values.now n (tapes_of (U.seen units.old))
        (tapes_of (U.seen units.new)) result) }
    ensures failed { result ≡ Printed.Failed → RoseAt n (U.seen units.old) (U.seen units.new) }
    ensures counts { KeepsCounts (U.seen units.old) (U.seen units.new) }
    ensures units { ChangesUnit n (U.seen units.old) (U.seen units.new) }
{
    let format = match read_format(alloc, text) {
        Ok(format) => format,
        Err(FormatStop::Bad) => return Printed::Unfit,
        Err(FormatStop::Memory) => return Printed::Memory,
    };
    match lay_out(alloc, &format, values) {
        Err(_) => Printed::Memory,
        Ok(Laid::Real) => Printed::Real,
        Ok(Laid::Unfit) => Printed::Unfit,
        Ok(Laid::Records(records)) => written(units.write_all(n, records.items())),
    }
}

/// The answer of writes.
fn written(answer: UnitsAnswer) -> Printed
    ensures { result ≡ printed_by answer }
{
    match answer {
        UnitsAnswer::Ok => Printed::Done,
        UnitsAnswer::Failed => Printed::Failed,
        UnitsAnswer::Absent => Printed::Absent,
        UnitsAnswer::Memory => Printed::Memory,
    }
}
