// One instruction.

ghost use Rattle.std.specs.Prelude.{◌≡◌, ◌<◌, ◌^◌, IfSome, option_map, map};
ghost use Rattle.unit_io.specs.Units.{tapes_of};
ghost use Rattle.rv_emulate.specs.CpuView.{instr_at, instr_of, state_at, state_of};
ghost use Rattle.rv_emulate.specs.CpuTurns.{IsStep};

use crate::code::Code;
use crate::end::{CpuEnd, CpuStep};
use crate::flat::Flat;
use crate::hart::Hart;
use crate::storage::Storage;
use sil_base::FIRST_WORD;
use unit_io::UnitSet;

impl Hart {
    /// Makes one step, or says how the run ends.
    pub(crate) fn step<U: UnitSet>(&mut self, code: &Code, units: &mut U) -> CpuStep
        ensures { IsStep code.now result (state_of self.old (tapes_of (U.seen units.old))) (state_of self.new (tapes_of (U.seen units.new))) (U.seen units.old) (U.seen units.new) }
    {
        let (to, step) = self.storage.turn(code, self.pc, units);
        self.pc = to;
        step
    }
}

impl Storage {
    /// Makes the step at `pc`, and answers the place of the next one; or stays there and says how the
    /// run ends.
    pub(crate) fn turn<U: UnitSet>(&mut self, code: &Code, pc: u64, units: &mut U) -> (u64, CpuStep)
        ensures { IsStep code.now result.1 (state_at pc self.old (tapes_of (U.seen units.old))) (state_at result.0 self.new (tapes_of (U.seen units.new))) (U.seen units.old) (U.seen units.new) }
    {
        match fetch(code, pc) {
            None => (pc, CpuStep::Ended(CpuEnd::Fetch(pc))),
            Some(f) => self.act(code, f, pc, units),
        }
    }
}

/// The instruction at a place.
#[inline(always)]
fn fetch(code: &Code, pc: u64) -> Option<Flat>
    ensures same { instr_at (map instr_of code.now.flats.items) pc ≡ option_map instr_of result }
    ensures room { IfSome result (λ f. pc < 2 ^ 62) }
{
    if pc % 4 == 0 && pc >= FIRST_WORD {
        let k = ((pc - FIRST_WORD) / 4) as usize;
        code.flats.get(k).copied()
    } else {
        None
    }
}
