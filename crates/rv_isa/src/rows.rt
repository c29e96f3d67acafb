//! The table of instructions, forwards and backwards.

ghost use Rattle.std.specs.Prelude.{◌≡◌, ◌≢◌, ◌<◌, ◌^◌, ℕ, ℤ, MatchOption, IsTrue};
ghost use Rattle.rv_isa.specs.InstrRows.{r_row, i_row, shift_row, s_row, b_row, u_row};
ghost use Rattle.rv_isa.specs.InstrWords.{FitsI, twelve};
ghost use Rattle.rv_isa.specs.Decoded.{op_r, op_i, op_s, op_b, takes_bits};
ghost use Rattle.rv_isa.specs.declared.instr.ROp.{ROp};
ghost use Rattle.rv_isa.specs.declared.instr.IOp.{IOp};
ghost use Rattle.rv_isa.specs.declared.instr.SOp.{SOp};
ghost use Rattle.rv_isa.specs.declared.instr.BOp.{BOp};
ghost use Rattle.rv_isa.specs.declared.instr.UOp.{UOp};

use crate::instr::{BOp, IOp, ROp, SOp, UOp};

/// The operation of format R with this opcode, funct3 and funct7.
pub(crate) fn r_op(opcode: u8, funct3: u8, funct7: u8) -> Option<ROp>
    ensures same { result ≡ op_r opcode funct3 funct7 }
    ensures reads { MatchOption result ((op : ROp) → r_row op ≢ (opcode, funct3, funct7)) (λ op. r_row op ≡ (opcode, funct3, funct7)) }
{
    match (opcode, funct3, funct7) {
        (0x33, 0, 0) => Some(ROp::Add),
        (0x33, 1, 0) => Some(ROp::Sll),
        (0x33, 2, 0) => Some(ROp::Slt),
        (0x33, 3, 0) => Some(ROp::Sltu),
        (0x33, 4, 0) => Some(ROp::Xor),
        (0x33, 5, 0) => Some(ROp::Srl),
        (0x33, 6, 0) => Some(ROp::Or),
        (0x33, 7, 0) => Some(ROp::And),
        (0x33, 0, 0x20) => Some(ROp::Sub),
        (0x33, 5, 0x20) => Some(ROp::Sra),
        (0x33, 0, 1) => Some(ROp::Mul),
        (0x33, 1, 1) => Some(ROp::Mulh),
        (0x33, 2, 1) => Some(ROp::Mulhsu),
        (0x33, 3, 1) => Some(ROp::Mulhu),
        (0x33, 4, 1) => Some(ROp::Div),
        (0x33, 5, 1) => Some(ROp::Divu),
        (0x33, 6, 1) => Some(ROp::Rem),
        (0x33, 7, 1) => Some(ROp::Remu),
        (0x3b, 0, 0) => Some(ROp::Addw),
        (0x3b, 1, 0) => Some(ROp::Sllw),
        (0x3b, 5, 0) => Some(ROp::Srlw),
        (0x3b, 0, 0x20) => Some(ROp::Subw),
        (0x3b, 5, 0x20) => Some(ROp::Sraw),
        (0x3b, 0, 1) => Some(ROp::Mulw),
        (0x3b, 4, 1) => Some(ROp::Divw),
        (0x3b, 5, 1) => Some(ROp::Divuw),
        (0x3b, 6, 1) => Some(ROp::Remw),
        (0x3b, 7, 1) => Some(ROp::Remuw),
        _ => None,
    }
}

/// Opcode, funct3 and funct7.
pub(crate) fn row_of_r(op: ROp) -> (u8, u8, u8)
    ensures { result ≡ r_row op }
{
    match op {
        ROp::Add => (0x33, 0, 0),
        ROp::Sll => (0x33, 1, 0),
        ROp::Slt => (0x33, 2, 0),
        ROp::Sltu => (0x33, 3, 0),
        ROp::Xor => (0x33, 4, 0),
        ROp::Srl => (0x33, 5, 0),
        ROp::Or => (0x33, 6, 0),
        ROp::And => (0x33, 7, 0),
        ROp::Sub => (0x33, 0, 0x20),
        ROp::Sra => (0x33, 5, 0x20),
        ROp::Mul => (0x33, 0, 1),
        ROp::Mulh => (0x33, 1, 1),
        ROp::Mulhsu => (0x33, 2, 1),
        ROp::Mulhu => (0x33, 3, 1),
        ROp::Div => (0x33, 4, 1),
        ROp::Divu => (0x33, 5, 1),
        ROp::Rem => (0x33, 6, 1),
        ROp::Remu => (0x33, 7, 1),
        ROp::Addw => (0x3b, 0, 0),
        ROp::Sllw => (0x3b, 1, 0),
        ROp::Srlw => (0x3b, 5, 0),
        ROp::Subw => (0x3b, 0, 0x20),
        ROp::Sraw => (0x3b, 5, 0x20),
        ROp::Mulw => (0x3b, 0, 1),
        ROp::Divw => (0x3b, 4, 1),
        ROp::Divuw => (0x3b, 5, 1),
        ROp::Remw => (0x3b, 6, 1),
        ROp::Remuw => (0x3b, 7, 1),
    }
}

/// The operation of format I with this opcode, funct3 and twelve bits above rs1.
pub(crate) fn i_op(opcode: u8, funct3: u8, bits: u16) -> Option<IOp>
    requires { bits < 2 ^ 12 }
    ensures same { result ≡ op_i opcode funct3 bits }
    ensures reads { MatchOption result ((op : IOp) (imm : ℤ) → i_row op ≡ (opcode, funct3) → FitsI (shift_row op) imm → twelve (shift_row op) imm ≢ bits) (λ op. (i_row op ≡ (opcode, funct3)) × IsTrue (takes_bits (shift_row op) bits)) }
{
    match (opcode, funct3) {
        (0x13, 0) => Some(IOp::Addi),
        (0x13, 2) => Some(IOp::Slti),
        (0x13, 3) => Some(IOp::Sltiu),
        (0x13, 4) => Some(IOp::Xori),
        (0x13, 6) => Some(IOp::Ori),
        (0x13, 7) => Some(IOp::Andi),
        (0x03, 0) => Some(IOp::Lb),
        (0x03, 1) => Some(IOp::Lh),
        (0x03, 2) => Some(IOp::Lw),
        (0x03, 3) => Some(IOp::Ld),
        (0x03, 4) => Some(IOp::Lbu),
        (0x03, 5) => Some(IOp::Lhu),
        (0x03, 6) => Some(IOp::Lwu),
        (0x67, 0) => Some(IOp::Jalr),
        (0x1b, 0) => Some(IOp::Addiw),
        (0x0f, 0) => Some(IOp::Fence),
        (0x13, 1) if bits / 64 == 0 => Some(IOp::Slli),
        (0x13, 5) if bits / 64 == 0 => Some(IOp::Srli),
        (0x13, 5) if bits / 64 == 0x10 => Some(IOp::Srai),
        (0x1b, 1) if bits / 32 == 0 => Some(IOp::Slliw),
        (0x1b, 5) if bits / 32 == 0 => Some(IOp::Srliw),
        (0x1b, 5) if bits / 32 == 0x20 => Some(IOp::Sraiw),
        _ => None,
    }
}

/// Opcode and funct3.
pub(crate) fn row_of_i(op: IOp) -> (u8, u8)
    ensures { result ≡ i_row op }
{
    match op {
        IOp::Addi => (0x13, 0),
        IOp::Slti => (0x13, 2),
        IOp::Sltiu => (0x13, 3),
        IOp::Xori => (0x13, 4),
        IOp::Ori => (0x13, 6),
        IOp::Andi => (0x13, 7),
        IOp::Slli => (0x13, 1),
        IOp::Srli => (0x13, 5),
        IOp::Srai => (0x13, 5),
        IOp::Lb => (0x03, 0),
        IOp::Lh => (0x03, 1),
        IOp::Lw => (0x03, 2),
        IOp::Ld => (0x03, 3),
        IOp::Lbu => (0x03, 4),
        IOp::Lhu => (0x03, 5),
        IOp::Lwu => (0x03, 6),
        IOp::Jalr => (0x67, 0),
        IOp::Addiw => (0x1b, 0),
        IOp::Slliw => (0x1b, 1),
        IOp::Srliw => (0x1b, 5),
        IOp::Sraiw => (0x1b, 5),
        IOp::Fence => (0x0f, 0),
    }
}

/// The operation of format S with this funct3.
pub(crate) fn s_op(funct3: u8) -> Option<SOp>
    ensures same { result ≡ op_s funct3 }
    ensures reads { MatchOption result ((op : SOp) → s_row op ≢ funct3) (λ op. s_row op ≡ funct3) }
{
    match funct3 {
        0 => Some(SOp::Sb),
        1 => Some(SOp::Sh),
        2 => Some(SOp::Sw),
        3 => Some(SOp::Sd),
        _ => None,
    }
}

/// funct3.
pub(crate) fn row_of_s(op: SOp) -> u8
    ensures { result ≡ s_row op }
{
    match op {
        SOp::Sb => 0,
        SOp::Sh => 1,
        SOp::Sw => 2,
        SOp::Sd => 3,
    }
}

/// The operation of format B with this funct3.
pub(crate) fn b_op(funct3: u8) -> Option<BOp>
    ensures same { result ≡ op_b funct3 }
    ensures reads { MatchOption result ((op : BOp) → b_row op ≢ funct3) (λ op. b_row op ≡ funct3) }
{
    match funct3 {
        0 => Some(BOp::Beq),
        1 => Some(BOp::Bne),
        4 => Some(BOp::Blt),
        5 => Some(BOp::Bge),
        6 => Some(BOp::Bltu),
        7 => Some(BOp::Bgeu),
        _ => None,
    }
}

/// funct3.
pub(crate) fn row_of_b(op: BOp) -> u8
    ensures { result ≡ b_row op }
{
    match op {
        BOp::Beq => 0,
        BOp::Bne => 1,
        BOp::Blt => 4,
        BOp::Bge => 5,
        BOp::Bltu => 6,
        BOp::Bgeu => 7,
    }
}

/// The opcode.
pub(crate) fn row_of_u(op: UOp) -> u8
    ensures { result ≡ u_row op }
{
    match op {
        UOp::Lui => 0x37,
        UOp::Auipc => 0x17,
    }
}
