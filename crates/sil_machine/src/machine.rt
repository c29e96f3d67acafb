// The machine, one step at a time.
ghost use Rattle.std.specs.Prelude.{◌≡◌, ◌≢◌, ◌+◌, ◌≤◌, ◌⊎◌, ℕ, IfOk, true};
ghost use Rattle.unit_io.specs.Units.{RoseAt, tapes_of};
ghost use Rattle.sil_model.specs.WellFormed.{IsWellFormed};
ghost use Rattle.sil_machine.specs.KeptUnits.{KeepsUnits};
ghost use Rattle.sil_machine.specs.Positions.{CanStep, CutsStep, HasRun, advance, answer_of, first_running, steps_of, steps_then, tapes_at, tells};

use crate::simulation::first_position;
use crate::state::{Position, step};
use layout_params::Params;
use sil_model::{End, Program};
use std::alloc::{AllocError, Global};
use std::marker::Model;
use unit_io::UnitSet;

/// What a step answers: the machine goes on, or has ended.
#[derive(Clone, Copy, PartialEq, Eq, Debug)]
pub enum Step {
    Next,
    Stop(End),
}

/// A machine, which contracts see as its program, the parameters and where it stands, or its end.
#[derive(Drop)]
pub struct Machine<'p> {
    alloc: Global,
    program: &'p Program,
    params: &'p Params,
    position: Position,
    ended: Option<End>,
}

impl<'p> Model for Machine<'p> {
    ghost use Rattle.sil_model.specs.WellFormed.{IsWellFormed};
    ghost use Rattle.sil_machine.specs.Positions.{Running, shown};

    ghost Value = { Running };

    ghost view = { λ m. record { program = m.program.now; parameters = m.params.now; outcome = shown m.ended m.position } };

    ghost invariant = { λ m. IsWellFormed m.program.now m.params.now.settings };
}

impl<'p> Machine<'p> {
    /// One step. After an end it answers that end again.
    #[tactic(auto, unfolding(crate::specs::Positions::Makes), using(crate::proofs::KeptUnits::kept_units))]
    pub fn step<U: UnitSet>(&mut self, units: &mut U) -> Step
        requires { CanStep self.old.outcome }
        ensures moves { result ≢ Step.Stop End.Memory → tells self.old self.old.outcome (tapes_of (U.seen units.old)) ≡ true → self.new ≡ advance self.old (tapes_of (U.seen units.old)) }
        ensures tapes { result ≢ Step.Stop End.Memory → tells self.old self.old.outcome (tapes_of (U.seen units.old)) ≡ true → tapes_of (U.seen units.new) ≡ tapes_at self.old self.old.outcome (tapes_of (U.seen units.old)) }
        ensures program { self.new.program ≡ self.old.program }
        ensures parameters { self.new.parameters ≡ self.old.parameters }
        ensures answers { answer_of self.new.outcome ≡ result }
        ensures counts { steps_of self.new.outcome ≡ steps_then self.old.program self.old.outcome }
        ensures one_more { steps_of self.new.outcome ≤ steps_of self.old.outcome + 1 }
        ensures rests { HasRun self.old.outcome → U.seen units.new ≡ U.seen units.old }
        ensures cut { result ≡ Step.Stop End.Memory → CutsStep self.old self.old.outcome (tapes_of (U.seen units.old)) (tapes_of (U.seen units.new)) }
        ensures faults { (k unit : ℕ) → result ≡ Step.Stop (End.UnitFault k unit) → HasRun self.old.outcome ⊎ RoseAt unit (U.seen units.old) (U.seen units.new) }
        ensures kept { KeepsUnits (U.seen units.old) (U.seen units.new) }
    {
        if let Some(end) = self.ended {
            return Step::Stop(end);
        }
        match step(
            self.alloc,
            self.program,
            self.params,
            &mut self.position,
            units,
        ) {
            Ok(()) => Step::Next,
            Err(end) => {
                self.ended = Some(end);
                Step::Stop(end)
            }
        }
    }

    /// The steps taken: each statement that was met counts, the one that ended the run included.
    pub fn steps(&self) -> u64
        ensures { result ≡ steps_of self.now.outcome }
    {
        self.position.steps
    }
}

/// The machine at the start of a run of this program.
pub fn start<'p>(
    alloc: Global,
    program: &'p Program,
    params: &'p Params,
) -> Result<Machine<'p>, AllocError>
    requires { IsWellFormed program.now params.now.settings }
    ensures first { IfOk result (λ m. m ≡ first_running program.now params.now) }
    ensures fresh { IfOk result (λ m. steps_of m.outcome ≡ 0) }
    ensures can_step { IfOk result (λ m. CanStep m.outcome) }
{
    let position = first_position(alloc, program, params)?;
    Ok(Machine {
        alloc,
        program,
        params,
        position,
        ended: None,
    })
}
