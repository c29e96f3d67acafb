// The states of a machine, and their steps.
ghost use Rattle.std.specs.Prelude.{◌≡◌, ◌≢◌, ◌+◌, ◌-◌, ◌<◌, ◌≤◌, ◌^◌, ℕ, Err, false, true, IfNone, IfSome, None, Some, slice_get};
ghost use Rattle.unit_io.specs.Tapes.{Tapes};
ghost use Rattle.unit_io.specs.Units.{RoseAt, tapes_of};
ghost use Rattle.sil_runs.specs.Machine.{make_step, step};
ghost use Rattle.sil_model.specs.Settling.{settle};
ghost use Rattle.sil_model.specs.Sites.{site_of};
ghost use Rattle.sil_model.specs.UnitMacros.{calls_unit};
ghost use Rattle.sil_model.specs.WellFormed.{IsWellFormed};
ghost use Rattle.sil_machine.specs.Positions.{IsCutAt, Makes, counted, ended_with_memory, left, state_at};
ghost use Rattle.sil_machine.specs.Outcomes.{IsAs, end_at, outcome_of};
ghost use Rattle.sil_machine.specs.MachineParts.{answered, had_memory};
ghost use Rattle.sil_machine.specs.KeptUnits.{KeepsUnits};
ghost use Rattle.sil_machine.specs.UnitStatements.{IsCut};

use crate::dispatch::perform;
use crate::parts::{Parts, Stop};
use crate::site::Site;
use layout_params::Params;
use sil_base::MAX_STEPS;
use sil_model::{End, Flow, Program, Statement};
use std::alloc::Global;
use unit_io::UnitSet;

/// Where a machine is: the number of the next statement, the steps taken, and the parts that
/// statements change.
#[derive(Drop)]
pub struct Position {
    pub statement: u32,
    pub steps: u64,
    pub parts: Parts,
}

/// Goes where a statement went, or says how the run ends. The statement counts as a step.
fn finish(at: &mut Position, went: Result<Flow, Stop>) -> Result<(), End>
    requires number { at.old.statement < 2 ^ 32 - 1 }
    requires steps { at.old.steps < MAX_STEPS }
    ensures memory { ended_with_memory result ≡ had_memory went }
    ensures settles { ended_with_memory result ≡ true → (tapes : Tapes) → settle (state_at at.old tapes) (answered went (state_at at.old tapes)) ≡ left result (state_at at.new tapes) }
    ensures counts { at.new.steps ≡ at.old.steps + 1 }
    ensures cut { result ≡ Err End.Memory → went ≡ Err Stop.Memory }
    ensures faults { (k unit : ℕ) → result ≡ Err (End.UnitFault k unit) → went ≡ Err (Stop.UnitFault unit) }
{
    let k = at.statement;
    at.steps += 1;
    match went {
        Ok(Flow::Next) => {
            at.statement = k + 1;
            Ok(())
        }
        Ok(Flow::To(to)) => {
            at.statement = to;
            Ok(())
        }
        Ok(Flow::Exit(code)) => Err(End::Exit(code)),
        Ok(Flow::Trap) => Err(End::Trap(k)),
        Err(Stop::Undefined) => Err(End::Undefined(k)),
        Err(Stop::UnitFault(unit)) => Err(End::UnitFault(k, unit)),
        Err(Stop::Memory) => Err(End::Memory),
    }
}

/// The step of a position at this statement.
fn make_step<U: UnitSet>(
    alloc: Global,
    program: &Program,
    params: &Params,
    statement: &Statement,
    at: &mut Position,
    units: &mut U,
) -> Result<(), End>
    requires well_formed { IsWellFormed program.now params.now.settings }
    requires stands { slice_get program.now.statements at.old.statement ≡ Some statement.now }
    requires number { at.old.statement < 2 ^ 32 - 1 }
    requires steps { at.old.steps < MAX_STEPS }
    ensures steps { Makes (make_step program.now params.now statement.now (state_at at.old (tapes_of (U.seen units.old)))) result (state_at at.new (tapes_of (U.seen units.new))) }
    ensures counts { at.new.steps ≡ at.old.steps + 1 }
    ensures stays { calls_unit statement.now.name ≡ false → U.seen units.new ≡ U.seen units.old }
    ensures cut { result ≡ Err End.Memory → IsCut statement.now.name (site_of program.now params.now at.old.statement statement.now) at.old.parts.cells (tapes_of (U.seen units.old)) (tapes_of (U.seen units.new)) }
    ensures faults { (k unit : ℕ) → result ≡ Err (End.UnitFault k unit) → RoseAt unit (U.seen units.old) (U.seen units.new) }
    ensures kept { KeepsUnits (U.seen units.old) (U.seen units.new) }
{
    let site = Site::of(program, params, at.statement, statement);
    let went = perform(alloc, statement.name, &site, at.steps, &mut at.parts, units);
    finish(at, went)
}

/// The statement of a number.
fn statement_at(program: &Program, k: u32) -> Option<&Statement>
    ensures none { IfNone result (slice_get program.now.statements k ≡ None) }
    ensures some { IfSome result (λ s. slice_get program.now.statements k ≡ Some s.now) }
{
    program.statements.items().get(k as usize)
}

/// One step. Past the last statement it is undefined, and no step is counted.
#[tactic(auto, using(crate::proofs::KeptUnits::kept_units))]
pub fn step<U: UnitSet>(
    alloc: Global,
    program: &Program,
    params: &Params,
    at: &mut Position,
    units: &mut U,
) -> Result<(), End>
    requires well_formed { IsWellFormed program.now params.now.settings }
    requires steps { at.old.steps < MAX_STEPS }
    ensures steps { Makes (step program.now params.now (state_at at.old (tapes_of (U.seen units.old)))) result (state_at at.new (tapes_of (U.seen units.new))) }
    ensures counts { at.new.steps ≡ counted program.now at.old }
    ensures one_more { at.new.steps ≤ at.old.steps + 1 }
    ensures cut { result ≡ Err End.Memory → IsCutAt program.now params.now at.old (tapes_of (U.seen units.old)) (tapes_of (U.seen units.new)) }
    ensures faults { (k unit : ℕ) → result ≡ Err (End.UnitFault k unit) → RoseAt unit (U.seen units.old) (U.seen units.new) }
    ensures kept { KeepsUnits (U.seen units.old) (U.seen units.new) }
{
    match statement_at(program, at.statement) {
        None => Err(End::Undefined(at.statement)),
        Some(statement) => make_step(alloc, program, params, statement, at, units),
    }
}

/// The end at a statement where no steps are left.
#[tactic(auto, unfolding(crate::specs::Outcomes::end_at))]
fn end_at(program: &Program, k: u32) -> End
    ensures { result ≡ end_at program.now k }
{
    match statement_at(program, k) {
        None => End::Undefined(k),
        Some(_) => End::Budget,
    }
}

/// A run of at most n steps.
pub fn run<U: UnitSet>(
    alloc: Global,
    program: &Program,
    params: &Params,
    at: &mut Position,
    n: u64,
    units: &mut U,
) -> End
    requires well_formed { IsWellFormed program.now params.now.settings }
    requires steps { at.old.steps + n ≤ MAX_STEPS }
    ensures ends { result ≢ End.Memory → IsAs (record { end = Some result; tapes = tapes_of (U.seen units.new) }) (outcome_of program.now params.now n (state_at at.old (tapes_of (U.seen units.old)))) }
    ensures faults { (k unit : ℕ) → result ≡ End.UnitFault k unit → RoseAt unit (U.seen units.old) (U.seen units.new) }
    ensures kept { KeepsUnits (U.seen units.old) (U.seen units.new) }
{
    for i in 0..n {
        match step(alloc, program, params, at, units) {
            Ok(()) => {}
            Err(end) => return end,
        }
    }
    end_at(program, at.statement)
}
