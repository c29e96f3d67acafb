// What each instruction does.

ghost use Rattle.std.specs.Prelude.{◌≡◌, ◌+◌, ◌*◌, ◌<◌, ◌^◌, ◌⊎◌, if◌then◌else◌};
ghost use Rattle.unit_io.specs.Tapes.{Tapes};
ghost use Rattle.unit_io.specs.Units.{tapes_of};
ghost use Rattle.rv_emulate.specs.EmulatorSteps.{jump, loads, loads_signed, extended, next_with, r_value, store_step, sum64, taken};
ghost use Rattle.rv_emulate.specs.EmulatorMemory.{stored};
ghost use Rattle.rv_emulate.specs.FlatInstrs.{upper_bits};
ghost use Rattle.rv_emulate.specs.CpuView.{image_of, instr_of, state_at, Steps};
ghost use Rattle.rv_emulate.specs.CpuTurns.{Acts};

use crate::access::{load, store};
use crate::code::Code;
use crate::end::{CpuEnd, CpuStep};
use crate::flat::Flat;
use crate::storage::Storage;
use crate::values::{extend, extend_bytes, is_taken, value_of_r, wide};
use crate::what::What;
use rv_isa::{BOp, ROp};
use unit_io::UnitSet;

impl Storage {
    /// Does what the instruction at `pc` does, and answers the place of the next one; or says how the
    /// run ends, and changes nothing.
    pub(crate) fn act<U: UnitSet>(
        &mut self,
        code: &Code,
        f: Flat,
        pc: u64,
        units: &mut U,
    ) -> (u64, CpuStep)
        requires { pc < 2 ^ 62 }
        ensures { Acts (image_of code.now) (instr_of f) result.1 (state_at pc self.old (tapes_of (U.seen units.old))) (state_at result.0 self.new (tapes_of (U.seen units.new))) (U.seen units.old) (U.seen units.new) }
    {
        let x = self.read(f.rs1);
        let y = self.read(f.rs2);
        let z = wide(f.imm);
        match f.what {
            What::Add => self.compute(ROp::Add, f.rd, x, y, pc),
            What::Sll => self.compute(ROp::Sll, f.rd, x, y, pc),
            What::Slt => self.compute(ROp::Slt, f.rd, x, y, pc),
            What::Sltu => self.compute(ROp::Sltu, f.rd, x, y, pc),
            What::Xor => self.compute(ROp::Xor, f.rd, x, y, pc),
            What::Srl => self.compute(ROp::Srl, f.rd, x, y, pc),
            What::Or => self.compute(ROp::Or, f.rd, x, y, pc),
            What::And => self.compute(ROp::And, f.rd, x, y, pc),
            What::Sub => self.compute(ROp::Sub, f.rd, x, y, pc),
            What::Sra => self.compute(ROp::Sra, f.rd, x, y, pc),
            What::Mul => self.compute(ROp::Mul, f.rd, x, y, pc),
            What::Mulh => self.compute(ROp::Mulh, f.rd, x, y, pc),
            What::Mulhsu => self.compute(ROp::Mulhsu, f.rd, x, y, pc),
            What::Mulhu => self.compute(ROp::Mulhu, f.rd, x, y, pc),
            What::Div => self.compute(ROp::Div, f.rd, x, y, pc),
            What::Divu => self.compute(ROp::Divu, f.rd, x, y, pc),
            What::Rem => self.compute(ROp::Rem, f.rd, x, y, pc),
            What::Remu => self.compute(ROp::Remu, f.rd, x, y, pc),
            What::Addw => self.compute(ROp::Addw, f.rd, x, y, pc),
            What::Sllw => self.compute(ROp::Sllw, f.rd, x, y, pc),
            What::Srlw => self.compute(ROp::Srlw, f.rd, x, y, pc),
            What::Subw => self.compute(ROp::Subw, f.rd, x, y, pc),
            What::Sraw => self.compute(ROp::Sraw, f.rd, x, y, pc),
            What::Mulw => self.compute(ROp::Mulw, f.rd, x, y, pc),
            What::Divw => self.compute(ROp::Divw, f.rd, x, y, pc),
            What::Divuw => self.compute(ROp::Divuw, f.rd, x, y, pc),
            What::Remw => self.compute(ROp::Remw, f.rd, x, y, pc),
            What::Remuw => self.compute(ROp::Remuw, f.rd, x, y, pc),
            What::Addi => self.compute(ROp::Add, f.rd, x, z, pc),
            What::Slti => self.compute(ROp::Slt, f.rd, x, z, pc),
            What::Sltiu => self.compute(ROp::Sltu, f.rd, x, z, pc),
            What::Xori => self.compute(ROp::Xor, f.rd, x, z, pc),
            What::Ori => self.compute(ROp::Or, f.rd, x, z, pc),
            What::Andi => self.compute(ROp::And, f.rd, x, z, pc),
            What::Slli => self.compute(ROp::Sll, f.rd, x, z, pc),
            What::Srli => self.compute(ROp::Srl, f.rd, x, z, pc),
            What::Srai => self.compute(ROp::Sra, f.rd, x, z, pc),
            What::Lb => self.load_signed(code, 1, f.rd, x.wrapping_add(z), pc),
            What::Lh => self.load_signed(code, 2, f.rd, x.wrapping_add(z), pc),
            What::Lw => self.load_signed(code, 4, f.rd, x.wrapping_add(z), pc),
            What::Ld => self.load(code, 8, f.rd, x.wrapping_add(z), pc),
            What::Lbu => self.load(code, 1, f.rd, x.wrapping_add(z), pc),
            What::Lhu => self.load(code, 2, f.rd, x.wrapping_add(z), pc),
            What::Lwu => self.load(code, 4, f.rd, x.wrapping_add(z), pc),
            What::Jalr => self.jump(f.rd, x.wrapping_add(z) / 2 * 2, pc),
            What::Addiw => self.compute(ROp::Addw, f.rd, x, z, pc),
            What::Slliw => self.compute(ROp::Sllw, f.rd, x, z, pc),
            What::Srliw => self.compute(ROp::Srlw, f.rd, x, z, pc),
            What::Sraiw => self.compute(ROp::Sraw, f.rd, x, z, pc),
            What::Fence => (pc + 4, CpuStep::Next),
            What::Sb => self.store(1, x.wrapping_add(z), y, pc),
            What::Sh => self.store(2, x.wrapping_add(z), y, pc),
            What::Sw => self.store(4, x.wrapping_add(z), y, pc),
            What::Sd => self.store(8, x.wrapping_add(z), y, pc),
            What::Beq => (branched(BOp::Beq, x, y, z, pc), CpuStep::Next),
            What::Bne => (branched(BOp::Bne, x, y, z, pc), CpuStep::Next),
            What::Blt => (branched(BOp::Blt, x, y, z, pc), CpuStep::Next),
            What::Bge => (branched(BOp::Bge, x, y, z, pc), CpuStep::Next),
            What::Bltu => (branched(BOp::Bltu, x, y, z, pc), CpuStep::Next),
            What::Bgeu => (branched(BOp::Bgeu, x, y, z, pc), CpuStep::Next),
            What::Lui => self.next(f.rd, upper(f.imm), pc),
            What::Auipc => self.next(f.rd, pc.wrapping_add(upper(f.imm)), pc),
            What::Jal => self.jump(f.rd, pc.wrapping_add(z), pc),
            What::Ecall => self.call(code, pc, units),
            What::Illegal => (pc, CpuStep::Ended(CpuEnd::Illegal(pc))),
        }
    }

    /// To the next place, with a value in `rd`.
    #[inline(always)]
    fn next(&mut self, rd: u8, value: u64, pc: u64) -> (u64, CpuStep)
        requires rd { rd < 32 }
        requires room { pc < 2 ^ 62 }
        ensures { (tapes : Tapes) → Steps (next_with (state_at pc self.old tapes) rd value) result.1 (state_at pc self.old tapes) (state_at result.0 self.new tapes) }
    {
        self.write(rd, value);
        (pc + 4, CpuStep::Next)
    }

    /// To the next place, with the result of an operation in `rd`.
    #[inline(always)]
    fn compute(&mut self, op: ROp, rd: u8, x: u64, y: u64, pc: u64) -> (u64, CpuStep)
        requires rd { rd < 32 }
        requires room { pc < 2 ^ 62 }
        ensures { (tapes : Tapes) → Steps (next_with (state_at pc self.old tapes) rd (r_value op x y)) result.1 (state_at pc self.old tapes) (state_at result.0 self.new tapes) }
    {
        self.next(rd, value_of_r(op, x, y), pc)
    }

    /// To a place, with the next one in `rd`.
    #[inline(always)]
    fn jump(&mut self, rd: u8, to: u64, pc: u64) -> (u64, CpuStep)
        requires rd { rd < 32 }
        requires room { pc < 2 ^ 62 }
        ensures { (tapes : Tapes) → Steps (jump (state_at pc self.old tapes) rd to) result.1 (state_at pc self.old tapes) (state_at result.0 self.new tapes) }
    {
        self.write(rd, pc + 4);
        (to, CpuStep::Next)
    }

    /// Loads a number of `width` bytes into `rd`.
    #[inline(always)]
    fn load(&mut self, code: &Code, width: usize, rd: u8, address: u64, pc: u64) -> (u64, CpuStep)
        requires width { (width ≡ 1) ⊎ (width ≡ 2) ⊎ (width ≡ 4) ⊎ (width ≡ 8) }
        requires rd { rd < 32 }
        requires room { pc < 2 ^ 62 }
        ensures { (tapes : Tapes) → Steps (loads (image_of code.now) (state_at pc self.old tapes) rd width address) result.1 (state_at pc self.old tapes) (state_at result.0 self.new tapes) }
    {
        match load(&code.constants, &self.memory, width, address) {
            Some(value) => self.next(rd, value, pc),
            None => (pc, CpuStep::Ended(CpuEnd::Load(pc))),
        }
    }

    /// Loads a number of `width` bytes into `rd`, extended by its sign.
    #[inline(always)]
    fn load_signed(
        &mut self,
        code: &Code,
        width: usize,
        rd: u8,
        address: u64,
        pc: u64,
    ) -> (u64, CpuStep)
        requires width { (width ≡ 1) ⊎ (width ≡ 2) ⊎ (width ≡ 4) }
        requires rd { rd < 32 }
        requires room { pc < 2 ^ 62 }
        ensures { (tapes : Tapes) → Steps (loads_signed (image_of code.now) (state_at pc self.old tapes) rd width address) result.1 (state_at pc self.old tapes) (state_at result.0 self.new tapes) }
    {
        match load(&code.constants, &self.memory, width, address) {
            Some(value) => self.next(rd, extend_bytes(width, value), pc),
            None => (pc, CpuStep::Ended(CpuEnd::Load(pc))),
        }
    }

    /// Stores the `width` lowest bytes of a number.
    #[inline(always)]
    fn store(&mut self, width: usize, address: u64, value: u64, pc: u64) -> (u64, CpuStep)
        requires width { (width ≡ 1) ⊎ (width ≡ 2) ⊎ (width ≡ 4) ⊎ (width ≡ 8) }
        requires room { pc < 2 ^ 62 }
        ensures { (tapes : Tapes) → Steps (store_step (state_at pc self.old tapes) (stored (state_at pc self.old tapes).memory width address value)) result.1 (state_at pc self.old tapes) (state_at result.0 self.new tapes) }
    {
        if store(&mut self.memory, width, address, value) {
            (pc + 4, CpuStep::Next)
        } else {
            (pc, CpuStep::Ended(CpuEnd::Store(pc)))
        }
    }
}

/// The place after a branch.
#[inline(always)]
fn branched(op: BOp, x: u64, y: u64, offset: u64, pc: u64) -> u64
    requires { pc < 2 ^ 62 }
    ensures { result ≡ (if taken op x y then sum64 pc offset else pc + 4) }
{
    if is_taken(op, x, y) {
        pc.wrapping_add(offset)
    } else {
        pc + 4
    }
}

/// An immediate of the upper 20 bits, extended to 64.
fn upper(imm: i32) -> u64
    ensures { result ≡ extended (upper_bits imm * 2 ^ 12) }
{
    extend(imm.cast_unsigned() << 12)
}
