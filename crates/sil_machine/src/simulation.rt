// The start of a run, and whole runs.
ghost use Rattle.std.specs.Prelude.{◌≡◌, ◌≢◌, ◌≤◌, ℕ, IfOk, IsSome, Some, true};
ghost use Rattle.unit_io.specs.Tapes.{no_tapes};
ghost use Rattle.unit_io.specs.Units.{RoseAt, tapes_of};
ghost use Rattle.sil_runs.specs.Machine.{machine};
ghost use Rattle.sil_model.specs.Start.{first_state};
ghost use Rattle.sil_model.specs.WellFormed.{IsWellFormed};
ghost use Rattle.sil_machine.specs.KeptUnits.{KeepsUnits};
ghost use Rattle.sil_machine.specs.Positions.{position_of};

use crate::parts::Parts;
use crate::state::{Position, run};
use layout_params::Params;
use sil_base::MAX_STEPS;
use sil_model::{Cells, End, Program, limits_of};
use std::alloc::{AllocError, Global};
use table_clauses::Tables;
use unit_io::UnitSet;

/// Where a run starts.
#[tactic(auto, unfolding(sil_model::specs::Start::first_state))]
pub fn first_position(
    alloc: Global,
    program: &Program,
    params: &Params,
) -> Result<Position, AllocError>
    requires { IsWellFormed program.now params.now.settings }
    ensures position { IfOk result (λ p. p ≡ position_of (first_state program.now params.now.settings no_tapes)) }
    ensures fresh { IfOk result (λ p. p.steps ≡ 0) }
{
    let statics = program.cells.items();
    let empty = params.settings().empty_stack(statics.len());
    let cells = Cells::new(
        alloc,
        limits_of(params),
        statics,
        params.settings().blank_cells() as usize,
    )?;
    let tables = Tables::of(alloc, program.tables.items())?;
    Ok(Position {
        statement: 0,
        steps: 0,
        parts: Parts {
            cells,
            tables,
            current: empty,
            previous: empty,
        },
    })
}

/// Runs a program for at most n steps. `End::Memory` says that there was no memory to start in, or to
/// print.
#[tactic(auto, unfolding(sil_model::specs::Start::first_state, crate::specs::Outcomes::outcome_of, crate::specs::Outcomes::IsAs), using(crate::proofs::KeptUnits::kept_units))]
pub fn sim<U: UnitSet>(
    alloc: Global,
    program: &Program,
    params: &Params,
    n: u64,
    units: &mut U,
) -> End
    requires well_formed { IsWellFormed program.now params.now.settings }
    requires steps { n ≤ MAX_STEPS }
    ensures end { result ≢ End.Memory → IsSome (machine program.now params.now (tapes_of (U.seen units.old)) n).end → (machine program.now params.now (tapes_of (U.seen units.old)) n).end ≡ Some result }
    ensures tapes { result ≢ End.Memory → IsSome (machine program.now params.now (tapes_of (U.seen units.old)) n).end → tapes_of (U.seen units.new) ≡ (machine program.now params.now (tapes_of (U.seen units.old)) n).tapes }
    ensures faults { (k unit : ℕ) → result ≡ End.UnitFault k unit → RoseAt unit (U.seen units.old) (U.seen units.new) }
    ensures kept { KeepsUnits (U.seen units.old) (U.seen units.new) }
{
    match first_position(alloc, program, params) {
        Err(_) => End::Memory,
        Ok(mut at) => run(alloc, program, params, &mut at, n, units),
    }
}
