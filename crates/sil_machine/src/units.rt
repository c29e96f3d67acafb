// The macros that call units.
ghost use Rattle.std.specs.Prelude.{◌≡◌, ◌≢◌, ◌≤◌, ℕ, Err, IfSome, Some, length, option_map};
ghost use Rattle.unit_io.specs.Units.{RoseAt, tapes_of};
ghost use Rattle.sil_macros.specs.declared.names.Macro.TheVariants.{Output};
ghost use Rattle.unit_clauses.specs.UnitClauses.{bkspce, enfile, output, rewind};
ghost use Rattle.sil_machine.specs.KeptUnits.{KeepsUnits};
ghost use Rattle.sil_machine.specs.MachineParts.{Meets, state_of};
ghost use Rattle.sil_machine.specs.UnitStatements.{IsCut, print_seen, printed_to, to_print, unit_of, went_by};

use crate::parts::{Parts, Stop};
use crate::site::Site;
use flow_clauses::read_values;
use sil_base::MAX_LIST_ITEMS;
use sil_format::Value;
use sil_model::{Cells, Flow, a_field, format_text, place};
use std::alloc::Global;
use unit_calls::{Printed, print, unit_number};
use unit_io::{UnitSet, UnitsAnswer};

/// The unit that a statement names by its first operand.
#[tactic(auto, unfolding(crate::specs::UnitStatements::unit_of))]
fn unit_of(site: &Site, cells: &Cells) -> Option<u32>
    ensures { result ≡ unit_of site.now cells.now }
{
    let at = place(site.args(), 0)?;
    let a = a_field(cells, at)?;
    Some(unit_number(a.cast_unsigned()))
}

/// How a statement goes by what a call on its unit answers.
fn went_by(unit: u32, answer: UnitsAnswer) -> Result<Flow, Stop>
    ensures goes { result ≡ went_by unit answer }
    ensures memory { result ≡ Err Stop.Memory → answer ≡ UnitsAnswer.Memory }
    ensures failed { (n : ℕ) → result ≡ Err (Stop.UnitFault n) → (answer ≡ UnitsAnswer.Failed) × (n ≡ unit) }
{
    match answer {
        UnitsAnswer::Ok => Ok(Flow::Next),
        UnitsAnswer::Failed => Err(Stop::UnitFault(unit)),
        UnitsAnswer::Memory => Err(Stop::Memory),
        UnitsAnswer::Absent => Err(Stop::Undefined),
    }
}

/// `BKSPCE D`: unit D.A goes back by one record.
#[tactic(auto, using(crate::proofs::UnitMeeting::moves, crate::proofs::KeptUnits::kept_units))]
pub fn backspace<U: UnitSet>(site: &Site, parts: &Parts, units: &mut U) -> Result<Flow, Stop>
    ensures meets { (k steps : ℕ) → let s = state_of k steps parts.now (tapes_of (U.seen units.old))
        in Meets s (bkspce site.now s) result (state_of k steps parts.now (tapes_of (U.seen units.new))) }
    ensures memory { result ≢ Err Stop.Memory }
    ensures faults { (unit : ℕ) → result ≡ Err (Stop.UnitFault unit) → RoseAt unit (U.seen units.old) (U.seen units.new) }
    ensures kept { KeepsUnits (U.seen units.old) (U.seen units.new) }
{
    match unit_of(site, &parts.cells) {
        None => Err(Stop::Undefined),
        Some(unit) => went_by(unit, units.backspace(unit)),
    }
}

/// `ENFILE D`: unit D.A drops its records from the place on.
#[tactic(auto, using(crate::proofs::UnitMeeting::moves, crate::proofs::KeptUnits::kept_units))]
pub fn endfile<U: UnitSet>(site: &Site, parts: &Parts, units: &mut U) -> Result<Flow, Stop>
    ensures meets { (k steps : ℕ) → let s = state_of k steps parts.now (tapes_of (U.seen units.old))
        in Meets s (enfile site.now s) result (state_of k steps parts.now (tapes_of (U.seen units.new))) }
    ensures memory { result ≢ Err Stop.Memory }
    ensures faults { (unit : ℕ) → result ≡ Err (Stop.UnitFault unit) → RoseAt unit (U.seen units.old) (U.seen units.new) }
    ensures kept { KeepsUnits (U.seen units.old) (U.seen units.new) }
{
    match unit_of(site, &parts.cells) {
        None => Err(Stop::Undefined),
        Some(unit) => went_by(unit, units.endfile(unit)),
    }
}

/// `REWIND D`: unit D.A goes to its first record.
#[tactic(auto, using(crate::proofs::UnitMeeting::moves, crate::proofs::KeptUnits::kept_units))]
pub fn rewind<U: UnitSet>(site: &Site, parts: &Parts, units: &mut U) -> Result<Flow, Stop>
    ensures meets { (k steps : ℕ) → let s = state_of k steps parts.now (tapes_of (U.seen units.old))
        in Meets s (rewind site.now s) result (state_of k steps parts.now (tapes_of (U.seen units.new))) }
    ensures memory { result ≢ Err Stop.Memory }
    ensures faults { (unit : ℕ) → result ≡ Err (Stop.UnitFault unit) → RoseAt unit (U.seen units.old) (U.seen units.new) }
    ensures kept { KeepsUnits (U.seen units.old) (U.seen units.new) }
{
    match unit_of(site, &parts.cells) {
        None => Err(Stop::Undefined),
        Some(unit) => went_by(unit, units.rewind(unit)),
    }
}

/// What an OUTPUT prints: the number of its unit, the text of its format, and the values, of which
/// so many count.
#[derive(Drop)]
struct Printout<'p> {
    unit: u32,
    text: &'p [u8],
    values: [Value; MAX_LIST_ITEMS],
    count: usize,
}

/// What an OUTPUT prints.
#[tactic(auto, unfolding(crate::specs::UnitStatements::to_print))]
fn read_printout<'p>(site: &Site<'p>, cells: &Cells) -> Option<Printout<'p>>
    ensures value { option_map print_seen result ≡ to_print site.now cells.now }
    ensures few { IfSome result (λ p. p.count ≤ MAX_LIST_ITEMS) }
    ensures size { IfSome result (λ p. length p.values ≡ MAX_LIST_ITEMS) }
{
    let d = place(site.args(), 0)?;
    let text = format_text(site.args(), 1)?;
    let places = site.maybe_places(2)?;
    let a = a_field(cells, d)?;
    let values = read_values(cells, places)?;
    Some(Printout {
        unit: unit_number(a.cast_unsigned()),
        text,
        values,
        count: places.len(),
    })
}

/// How an OUTPUT goes by what the call on its unit answers.
fn printed_to(unit: u32, answer: Printed) -> Result<Flow, Stop>
    ensures goes { result ≡ printed_to unit answer }
    ensures memory { result ≡ Err Stop.Memory → answer ≡ Printed.Memory }
    ensures failed { (n : ℕ) → result ≡ Err (Stop.UnitFault n) → (answer ≡ Printed.Failed) × (n ≡ unit) }
{
    match answer {
        Printed::Done => Ok(Flow::Next),
        Printed::Failed => Err(Stop::UnitFault(unit)),
        Printed::Unfit | Printed::Absent => Err(Stop::Undefined),
        Printed::Real => Ok(Flow::Trap),
        Printed::Memory => Err(Stop::Memory),
    }
}

/// `OUTPUT D,M,DD?`: the records of format M and of the A fields of the items are written on unit
/// D.A.
#[tactic(auto, using(crate::proofs::UnitMeeting::prints, crate::proofs::KeptUnits::kept_units))]
pub fn output<U: UnitSet>(
    alloc: Global,
    site: &Site,
    parts: &Parts,
    units: &mut U,
) -> Result<Flow, Stop>
    ensures meets { (k steps : ℕ) → let s = state_of k steps parts.now (tapes_of (U.seen units.old))
        in Meets s (output site.now s) result (state_of k steps parts.now (tapes_of (U.seen units.new))) }
    ensures cut { result ≡ Err Stop.Memory → IsCut Output site.now parts.now.cells (tapes_of (U.seen units.old)) (tapes_of (U.seen units.new)) }
    ensures faults { (unit : ℕ) → result ≡ Err (Stop.UnitFault unit) → RoseAt unit (U.seen units.old) (U.seen units.new) }
    ensures kept { KeepsUnits (U.seen units.old) (U.seen units.new) }
{
    match read_printout(site, &parts.cells) {
        None => Err(Stop::Undefined),
        Some(p) => {
            let values = &p.values[..p.count];
            printed_to(p.unit, print(alloc, units, p.unit, p.text, values))
        }
    }
}
