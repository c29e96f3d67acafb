// The emulator as its callers see it.

ghost use Rattle.std.specs.Prelude.{◌≡◌, ◌≢◌, ◌==◌, ◌<◌, ◌^◌, ◌⊎◌, ℕ, Some, IfSome, IsSome, length, true};
ghost use Rattle.std.specs.List.{position_from};
ghost use Rattle.unit_io.specs.Tapes.{Tapes};
ghost use Rattle.unit_io.specs.Units.{RoseAt, tapes_of};
ghost use Rattle.image_file.specs.Image.{Image};
ghost use Rattle.rv_emulate.specs.Ranges.{Rises};
ghost use Rattle.rv_emulate.specs.EmulatorSteps.{step};
ghost use Rattle.rv_emulate.specs.EmulatorRuns.{run, on_state, end_of, met_now};
ghost use Rattle.rv_emulate.specs.CpuTurns.{KeepsUnits};
ghost use Rattle.rv_emulate.specs.CutRuns.{IsCutAt, IsCutWithin};
ghost use Rattle.rv_emulate.specs.Cpus.{IsOf, SameImage, IfEnded, stands, state, answer_of, is_told};

use crate::code::Code;
use crate::end::{CpuEnd, CpuStep};
use crate::hart::Hart;
use std::marker::Model;
use unit_io::UnitSet;

/// A run of an image, which is made step by step.
#[derive(Drop)]
pub struct Cpu {
    pub(crate) code: Code,
    pub(crate) hart: Hart,
    pub(crate) ended: Option<CpuEnd>,
}

impl Model for Cpu {
    ghost use Rattle.rv_emulate.specs.CutRuns.{IsCutAt, IsCutWithin};
    ghost use Rattle.rv_emulate.specs.Cpus.{CpuState};
    ghost use Rattle.rv_emulate.specs.CpuView.{view_of};

    ghost Value = { CpuState };

    ghost view = { λ c. view_of c.code c.hart c.ended };
}

impl Cpu {
    /// Makes one step. After an end it answers that end again.
    pub fn step<U: UnitSet>(&mut self, units: &mut U) -> CpuStep
        ensures stands { (image : Image) → IsOf image self.old
            → let outcome = on_state (stands self.old (tapes_of (U.seen units.old))) (step image)
            in result ≢ CpuStep.Ended CpuEnd.Memory → is_told outcome ≡ true → stands self.new (tapes_of (U.seen units.new)) ≡ outcome }
        ensures answer { result ≡ answer_of self.new.ended }
        ensures ended { IfEnded result (λ e. self.new ≡ record self.old { ended = Some e }) }
        ensures image { SameImage self.old self.new }
        ensures rests { IsSome self.old.ended → U.seen units.new ≡ U.seen units.old }
        ensures units { KeepsUnits (U.seen units.old) (U.seen units.new) }
        ensures failed { (n : ℕ) → self.new.failed ≡ Some n → (self.old.failed ≡ Some n) ⊎ RoseAt n (U.seen units.old) (U.seen units.new) }
        ensures faults { (k unit : ℕ) → result ≡ CpuStep.Ended (CpuEnd.UnitFault k unit) → IsSome self.old.ended ⊎ (self.old.failed ≡ Some unit) }
        ensures cut { result ≡ CpuStep.Ended CpuEnd.Memory → IsSome self.old.ended ⊎ ((image : Image) → IsOf image self.old
            → IsCutAt image (state self.old (tapes_of (U.seen units.old))) (tapes_of (U.seen units.new))) }
    {
        if let Some(end) = self.ended {
            return CpuStep::Ended(end);
        }
        let step = self.hart.step(&self.code, units);
        if let CpuStep::Ended(end) = step {
            self.ended = Some(end);
        }
        step
    }

    /// Makes at most `budget` steps, and answers how the run ends: `Runaway` where it hasn't, and then
    /// it may be run further. After an end it answers that end again.
    pub fn run<U: UnitSet>(&mut self, units: &mut U, budget: u128) -> CpuEnd
        ensures stands { (image : Image) → IsOf image self.old
            → let outcome = on_state (stands self.old (tapes_of (U.seen units.old))) (run image budget)
            in result ≢ CpuEnd.Memory → is_told outcome ≡ true → (stands self.new (tapes_of (U.seen units.new)) ≡ outcome)
            × (end_of outcome ≡ Some result) }
        ensures image { SameImage self.old self.new }
        ensures rests { IsSome self.old.ended → U.seen units.new ≡ U.seen units.old }
        ensures units { KeepsUnits (U.seen units.old) (U.seen units.new) }
        ensures failed { (n : ℕ) → self.new.failed ≡ Some n → (self.old.failed ≡ Some n) ⊎ RoseAt n (U.seen units.old) (U.seen units.new) }
        ensures faults { (k unit : ℕ) → result ≡ CpuEnd.UnitFault k unit → IsSome self.old.ended ⊎ ((self.old.failed ≡ Some unit) ⊎ RoseAt unit (U.seen units.old) (U.seen units.new)) }
        ensures cut { result ≡ CpuEnd.Memory → IsSome self.old.ended ⊎ ((image : Image) → IsOf image self.old
            → IsCutWithin image budget (state self.old (tapes_of (U.seen units.old))) (tapes_of (U.seen units.new))) }
    {
        if let Some(end) = self.ended {
            return end;
        }
        self.ended = self.hart.run(&self.code, units, budget);
        self.ended.unwrap_or(CpuEnd::Runaway)
    }

    /// The statement that is met now: the one whose code begins here, where steps are left.
    pub fn met(&self) -> Option<u32>
        ensures { (image : Image) (tapes : Tapes) → IsOf image self.now → result ≡ met_now image (state self.now tapes) }
    {
        if self.hart.storage.registers[27] == 0 {
            return None;
        }
        statement_at(&self.code.places, self.hart.pc)
    }
}

/// The number of the statement whose code begins at this place.
fn statement_at(places: &[u64], pc: u64) -> Option<u32>
    requires few { length places.now < 2 ^ 28 }
    requires rising { Rises places.now }
    ensures { result ≡ position_from (λ place. pc == place) 0 places.now }
{
    let k = index_of(places, pc)?;
    Some(k as u32)
}

/// Where this place stands.
fn index_of(places: &[u64], pc: u64) -> Option<usize>
    requires { Rises places.now }
    ensures same { result ≡ position_from (λ place. pc == place) 0 places.now }
    ensures within { IfSome result (λ k. k < length places.now) }
{
    places.binary_search(&pc).ok()
}
