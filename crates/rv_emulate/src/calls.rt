// Calls, by their numbers in a7 and their operands in a0 to a5.

ghost use Rattle.std.specs.Prelude.{◌≡◌, ◌<◌, ◌^◌, length};
ghost use Rattle.unit_io.specs.Units.{tapes_of};
ghost use Rattle.rv_emulate.specs.EmulatorStates.{register, with_register};
ghost use Rattle.rv_emulate.specs.EmulatorSteps.{ecall, failed_unit};
ghost use Rattle.rv_emulate.specs.EmulatorMemory.{can_load, can_store};
ghost use Rattle.rv_emulate.specs.Ecalls.{call, can_take, is_unit_call, unit_fault};
ghost use Rattle.rv_emulate.specs.CpuView.{image_of, memory_of, state_at};
ghost use Rattle.rv_emulate.specs.CpuTurns.{IsTurn};

use crate::answers::Answer;
use crate::code::Code;
use crate::end::{CpuEnd, CpuStep};
use crate::memory::{Regions, holds};
use crate::storage::Storage;
use sil_base::{
    FIRST_CELL, FIRST_CONSTANT, FIRST_KIND, FIRST_SCRATCH, FIRST_TABLE, MAX_FORMAT_BYTES,
    MAX_LIST_ITEMS, MAX_VALUE_CHARACTERS,
};
use unit_calls::unit_number;
use unit_io::UnitSet;

impl Storage {
    /// Makes a call: one on a unit is answered, and any other ends the run.
    #[inline(never)]
    pub(crate) fn call<U: UnitSet>(&mut self, code: &Code, pc: u64, units: &mut U) -> (u64, CpuStep)
        requires { pc < 2 ^ 62 }
        ensures { IsTurn code.now.constants.items (ecall (image_of code.now) (state_at pc self.old (tapes_of (U.seen units.old)))) result.1 (state_at pc self.old (tapes_of (U.seen units.old))) (state_at result.0 self.new (tapes_of (U.seen units.new))) (U.seen units.old) (U.seen units.new) }
    {
        if !self.is_unit_call(&code.constants) {
            let end = self.end_of_call(code.places.len() as u64, pc);
            return (pc, CpuStep::Ended(end));
        }
        let n = unit_number(self.registers[10]);
        match self.call_unit(code, n, units) {
            Some(answer) => {
                self.take_answer(answer, n);
                (pc + 4, CpuStep::Next)
            }
            None => (pc, CpuStep::Ended(CpuEnd::Memory)),
        }
    }

    /// Takes the answer of a call on unit n: its number into a0, and whether the call failed.
    fn take_answer(&mut self, answer: Answer, n: u32)
        ensures registers { self.new.registers ≡ with_register self.old.registers 10 answer.number }
        ensures memory { self.new.memory ≡ self.old.memory }
        ensures failed { self.new.failed ≡ failed_unit answer.failed n }
    {
        self.write(10, answer.number);
        self.failed = if answer.failed { Some(n) } else { None };
    }

    /// Whether this is a call on a unit that can be made.
    fn is_unit_call(&self, constants: &[u8]) -> bool
        ensures { result ≡ is_unit_call constants.now (memory_of self.now.memory) self.now.registers }
    {
        let xs = &self.registers;
        match xs[17] {
            2 => can_store(&self.memory, xs[12], xs[11]),
            3 => {
                xs[12] <= MAX_FORMAT_BYTES
                    && can_load(constants, &self.memory, xs[12], xs[11])
                    && can_take(constants, &self.memory, xs[13], xs[14], xs[15])
            }
            4..=6 => true,
            _ => false,
        }
    }

    /// The end of any other call at `pc`, under this number of statements.
    fn end_of_call(&self, count: u64, pc: u64) -> CpuEnd
        requires { count < 2 ^ 32 }
        ensures { result ≡ call count (register self.now.registers 17) (register self.now.registers 10) (register self.now.registers 26) self.now.failed pc }
    {
        let statement = self.registers[26];
        if self.registers[17] != 1 || statement > count {
            return CpuEnd::BadCall(pc);
        }
        match self.registers[10] {
            0 => CpuEnd::Exit(0),
            1 => CpuEnd::Exit(1),
            2 => CpuEnd::Trap(statement as u32),
            3 => CpuEnd::Undefined(statement as u32),
            4 => CpuEnd::Budget,
            5 => self.unit_fault(statement as u32, pc),
            _ => CpuEnd::BadCall(pc),
        }
    }

    /// The end at a statement where the last unit call failed.
    fn unit_fault(&self, statement: u32, pc: u64) -> CpuEnd
        ensures { result ≡ unit_fault statement self.now.failed pc }
    {
        match self.failed {
            Some(unit) => CpuEnd::UnitFault(statement, unit),
            None => CpuEnd::BadCall(pc),
        }
    }
}

/// Whether `count` values are at this address: characters where `form` is 0, words where it is 1.
fn can_take(constants: &[u8], regions: &Regions, address: u64, count: u64, form: u64) -> bool
    ensures { result ≡ can_take constants.now (memory_of regions.now) address count form }
{
    match form {
        0 => count <= MAX_VALUE_CHARACTERS && can_load(constants, regions, count, address),
        1 => count <= MAX_LIST_ITEMS as u64
            && address % 8 == 0
            && can_load(constants, regions, 8 * count, address),
        _ => false,
    }
}

/// Whether one region that can be stored to holds so many bytes at an address; each holds none.
#[tactic(auto, unfolding(crate::specs::EmulatorMemory::can_store))]
fn can_store(regions: &Regions, n: u64, address: u64) -> bool
    ensures { result ≡ can_store (memory_of regions.now) n address }
{
    n == 0
        || holds(FIRST_CELL, &regions.cells, n, address)
        || holds(FIRST_KIND, &regions.kinds, n, address)
        || holds(FIRST_TABLE, &regions.tables, n, address)
        || holds(FIRST_SCRATCH, &regions.scratch, n, address)
}

/// Whether one region that can be loaded from holds so many bytes at an address; each holds none.
#[tactic(auto, unfolding(crate::specs::EmulatorMemory::can_load))]
fn can_load(constants: &[u8], regions: &Regions, n: u64, address: u64) -> bool
    ensures { result ≡ can_load constants.now (memory_of regions.now) n address }
{
    can_store(regions, n, address) || holds(FIRST_CONSTANT, constants, n, address)
}
