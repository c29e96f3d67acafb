// What instructions read and write.

ghost use Rattle.std.specs.Prelude.{◌≡◌, slice_index};

use crate::memory::Regions;

/// The registers x0 to x31, of which x0 holds 0, the memory, and the unit of the last unit call where
/// that call failed.
#[derive(Drop)]
pub(crate) struct Storage {
    pub(crate) registers: [u64; 32],
    pub(crate) memory: Regions,
    pub(crate) failed: Option<u32>,
    ghost zero: { slice_index registers 0 ≡ 0 },
}

impl Storage {
    ghost use Rattle.std.specs.Prelude.{◌<◌};
    ghost use Rattle.rv_emulate.specs.EmulatorStates.{register, with_register};

    /// The value of a register, which of x0 is 0.
    #[inline(always)]
    pub(crate) fn read(&self, r: u8) -> u64
        requires { r < 32 }
        ensures { result ≡ register self.now.registers r }
    {
        self.registers[r as usize]
    }

    /// Puts a value into the register `rd`.
    #[inline(always)]
    pub(crate) fn write(&mut self, rd: u8, value: u64)
        requires { rd < 32 }
        ensures registers { self.new.registers ≡ with_register self.old.registers rd value }
        ensures memory { self.new.memory ≡ self.old.memory }
        ensures failed { self.new.failed ≡ self.old.failed }
    {
        if rd != 0 {
            self.registers[rd as usize] = value;
        }
    }
}
