// Calls on units.

ghost use Rattle.std.specs.Prelude.{◌≡◌, ◌≢◌, IfSome, true};
ghost use Rattle.unit_io.specs.Units.{RoseAt, tapes_of};
ghost use Rattle.unit_calls.specs.Printing.{Prints};
ghost use Rattle.rv_emulate.specs.Ecalls.{can_write, is_unit_call};
ghost use Rattle.rv_emulate.specs.CpuView.{memory_of};
ghost use Rattle.rv_emulate.specs.CpuTurns.{KeepsUnits};
ghost use Rattle.rv_emulate.specs.UnitAnswers.{Calls, CutOff, text_of, values_of};

use crate::answers::{Answer, moved, printed, read};
use crate::code::Code;
use crate::memory::Regions;
use crate::operands::values_at;
use crate::pieces::{bytes_at, read_at};
use crate::storage::Storage;
use unit_calls::{Printed, print};
use unit_io::UnitSet;

impl Storage {
    /// Makes a call on unit n that can be made; none where there was no memory.
    #[tactic(auto, using(crate::proofs::UnitLaws::keeps_units))]
    pub(crate) fn call_unit<U: UnitSet>(
        &mut self,
        code: &Code,
        n: u32,
        units: &mut U,
    ) -> Option<Answer>
        requires { is_unit_call code.now.constants.items (memory_of self.old.memory) self.old.registers ≡ true }
        ensures calls { Calls code.now.constants.items (memory_of self.old.memory) self.old.registers n (tapes_of (U.seen units.old)) (tapes_of (U.seen units.new)) (memory_of self.new.memory) result }
        ensures rose { IfSome result (λ a. a.failed ≡ true → RoseAt n (U.seen units.old) (U.seen units.new)) }
        ensures units { KeepsUnits (U.seen units.old) (U.seen units.new) }
        ensures registers { self.new.registers ≡ self.old.registers }
        ensures failed { self.new.failed ≡ self.old.failed }
    {
        let xs = &self.registers;
        match xs[17] {
            2 => Some(read(read_at(&mut self.memory, xs[12], xs[11], n, units))),
            3 => printed(print_at(code, &self.memory, xs, n, units)),
            4 => Some(moved(units.rewind(n))),
            5 => Some(moved(units.backspace(n))),
            _ => Some(moved(units.endfile(n))),
        }
    }
}

/// Prints the values that these registers name by the format that they name.
#[tactic(auto, using(crate::proofs::UnitLaws::keeps_units, crate::proofs::UnitLaws::units_same))]
fn print_at<U: UnitSet>(
    code: &Code,
    regions: &Regions,
    xs: &[u64; 32],
    n: u32,
    units: &mut U,
) -> Printed
    requires { can_write code.now.constants.items (memory_of regions.now) xs.now ≡ true }
    ensures prints { result ≢ Printed.Memory → Prints (text_of code.now.constants.items (memory_of regions.now) xs.now)
        (values_of code.now.constants.items (memory_of regions.now) xs.now) n (tapes_of (U.seen units.old)) (tapes_of (U.seen units.new)) result }
    ensures cut { result ≡ Printed.Memory → CutOff (text_of code.now.constants.items (memory_of regions.now) xs.now)
        (values_of code.now.constants.items (memory_of regions.now) xs.now) n (tapes_of (U.seen units.old)) (tapes_of (U.seen units.new)) }
    ensures failed { result ≡ Printed.Failed → RoseAt n (U.seen units.old) (U.seen units.new) }
    ensures units { KeepsUnits (U.seen units.old) (U.seen units.new) }
{
    let text = bytes_at(&code.constants, regions, xs[12], xs[11]);
    match values_at(code.alloc, &code.constants, regions, xs[13], xs[14], xs[15]) {
        Ok(values) => print(code.alloc, units, n, text, &values),
        Err(_) => Printed::Memory,
    }
}
