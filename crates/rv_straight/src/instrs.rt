// Single instructions.
ghost use Rattle.std.specs.Prelude.{◌≡◌};

use rv_isa::{BOp, IOp, Instr, ROp, SOp, UOp};

/// LUI or AUIPC, with the upper 20 bits as a number.
pub fn upper_part(op: UOp, rd: u8, imm: u32) -> Instr
    ensures { result ≡ Instr.U op rd imm }
{
    Instr::U { op, rd, imm }
}

/// An operation on a register and an immediate, a load, or JALR.
pub fn immediate(op: IOp, rd: u8, rs1: u8, imm: i16) -> Instr
    ensures { result ≡ Instr.I op rd rs1 imm }
{
    Instr::I { op, rd, rs1, imm }
}

/// An operation on two registers.
pub fn operate(op: ROp, rd: u8, rs1: u8, rs2: u8) -> Instr
    ensures { result ≡ Instr.R op rd rs1 rs2 }
{
    Instr::R { op, rd, rs1, rs2 }
}

/// A branch by so many bytes, where a comparison of two registers holds.
pub fn branch(op: BOp, rs1: u8, rs2: u8, imm: i16) -> Instr
    ensures { result ≡ Instr.B op rs1 rs2 imm }
{
    Instr::B { op, rs1, rs2, imm }
}

/// A store of the register rs2, at an offset from the place in rs1.
pub fn store(op: SOp, rs1: u8, rs2: u8, imm: i16) -> Instr
    ensures { result ≡ Instr.S op rs1 rs2 imm }
{
    Instr::S { op, rs1, rs2, imm }
}
