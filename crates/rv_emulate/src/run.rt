// Instructions one after another.

ghost use Rattle.unit_io.specs.Units.{tapes_of};
ghost use Rattle.rv_emulate.specs.CpuView.{state_of};
ghost use Rattle.rv_emulate.specs.CpuTurns.{IsRun};

use crate::code::Code;
use crate::end::{CpuEnd, CpuStep};
use crate::hart::Hart;
use unit_io::UnitSet;

/// The steps of a round, which are counted in 64 bits.
const ROUND: u128 = 1 << 32;

impl Hart {
    /// Makes at most `budget` steps: the end, or none where there was none.
    pub(crate) fn run<U: UnitSet>(
        &mut self,
        code: &Code,
        units: &mut U,
        budget: u128,
    ) -> Option<CpuEnd>
        ensures { IsRun code.now budget result (state_of self.old (tapes_of (U.seen units.old))) (state_of self.new (tapes_of (U.seen units.new))) (U.seen units.old) (U.seen units.new) }
    {
        for round in 0..budget / ROUND {
            if let Some(end) = self.round(code, units, ROUND as u64) {
                return Some(end);
            }
        }
        self.round(code, units, (budget % ROUND) as u64)
    }

    /// Makes at most so many steps: the end, or none where there was none.
    fn round<U: UnitSet>(&mut self, code: &Code, units: &mut U, steps: u64) -> Option<CpuEnd>
        ensures { IsRun code.now steps result (state_of self.old (tapes_of (U.seen units.old))) (state_of self.new (tapes_of (U.seen units.new))) (U.seen units.old) (U.seen units.new) }
    {
        let mut pc = self.pc;
        for turn in 0..steps {
            let (to, step) = self.storage.turn(code, pc, units);
            pc = to;
            match step {
                CpuStep::Next => {}
                CpuStep::Ended(end) => {
                    self.pc = pc;
                    return Some(end);
                }
            }
        }
        self.pc = pc;
        None
    }
}
