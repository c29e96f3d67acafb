// What flat instructions do.

ghost use Rattle.std.specs.Prelude.{◌≡◌, ℕ, ℤ, Some};
ghost use Rattle.rv_isa.specs.declared.instr.Instr.TheVariants.{R, I, S, B, U};
ghost use Rattle.rv_emulate.specs.FlatInstrs.{instr_by, upper_bits};

use rv_isa::{BOp, IOp, ROp, SOp, UOp};

/// What an instruction does, by one number for each operation of each format; of a word that is no
/// instruction, nothing.
#[derive(Clone, Copy, PartialEq, Eq, Debug)]
pub(crate) enum What {
    Add,
    Sll,
    Slt,
    Sltu,
    Xor,
    Srl,
    Or,
    And,
    Sub,
    Sra,
    Mul,
    Mulh,
    Mulhsu,
    Mulhu,
    Div,
    Divu,
    Rem,
    Remu,
    Addw,
    Sllw,
    Srlw,
    Subw,
    Sraw,
    Mulw,
    Divw,
    Divuw,
    Remw,
    Remuw,
    Addi,
    Slti,
    Sltiu,
    Xori,
    Ori,
    Andi,
    Slli,
    Srli,
    Srai,
    Lb,
    Lh,
    Lw,
    Ld,
    Lbu,
    Lhu,
    Lwu,
    Jalr,
    Addiw,
    Slliw,
    Srliw,
    Sraiw,
    Fence,
    Sb,
    Sh,
    Sw,
    Sd,
    Beq,
    Bne,
    Blt,
    Bge,
    Bltu,
    Bgeu,
    Lui,
    Auipc,
    Jal,
    Ecall,
    Illegal,
}

pub(crate) fn what_r(op: ROp) -> What
    ensures { (rd rs1 rs2 : ℕ) (imm : ℤ) → instr_by result rd rs1 rs2 imm ≡ Some (R op rd rs1 rs2) }
{
    match op {
        ROp::Add => What::Add,
        ROp::Sll => What::Sll,
        ROp::Slt => What::Slt,
        ROp::Sltu => What::Sltu,
        ROp::Xor => What::Xor,
        ROp::Srl => What::Srl,
        ROp::Or => What::Or,
        ROp::And => What::And,
        ROp::Sub => What::Sub,
        ROp::Sra => What::Sra,
        ROp::Mul => What::Mul,
        ROp::Mulh => What::Mulh,
        ROp::Mulhsu => What::Mulhsu,
        ROp::Mulhu => What::Mulhu,
        ROp::Div => What::Div,
        ROp::Divu => What::Divu,
        ROp::Rem => What::Rem,
        ROp::Remu => What::Remu,
        ROp::Addw => What::Addw,
        ROp::Sllw => What::Sllw,
        ROp::Srlw => What::Srlw,
        ROp::Subw => What::Subw,
        ROp::Sraw => What::Sraw,
        ROp::Mulw => What::Mulw,
        ROp::Divw => What::Divw,
        ROp::Divuw => What::Divuw,
        ROp::Remw => What::Remw,
        ROp::Remuw => What::Remuw,
    }
}

pub(crate) fn what_i(op: IOp) -> What
    ensures { (rd rs1 rs2 : ℕ) (imm : ℤ) → instr_by result rd rs1 rs2 imm ≡ Some (I op rd rs1 imm) }
{
    match op {
        IOp::Addi => What::Addi,
        IOp::Slti => What::Slti,
        IOp::Sltiu => What::Sltiu,
        IOp::Xori => What::Xori,
        IOp::Ori => What::Ori,
        IOp::Andi => What::Andi,
        IOp::Slli => What::Slli,
        IOp::Srli => What::Srli,
        IOp::Srai => What::Srai,
        IOp::Lb => What::Lb,
        IOp::Lh => What::Lh,
        IOp::Lw => What::Lw,
        IOp::Ld => What::Ld,
        IOp::Lbu => What::Lbu,
        IOp::Lhu => What::Lhu,
        IOp::Lwu => What::Lwu,
        IOp::Jalr => What::Jalr,
        IOp::Addiw => What::Addiw,
        IOp::Slliw => What::Slliw,
        IOp::Srliw => What::Srliw,
        IOp::Sraiw => What::Sraiw,
        IOp::Fence => What::Fence,
    }
}

pub(crate) fn what_s(op: SOp) -> What
    ensures { (rd rs1 rs2 : ℕ) (imm : ℤ) → instr_by result rd rs1 rs2 imm ≡ Some (S op rs1 rs2 imm) }
{
    match op {
        SOp::Sb => What::Sb,
        SOp::Sh => What::Sh,
        SOp::Sw => What::Sw,
        SOp::Sd => What::Sd,
    }
}

pub(crate) fn what_b(op: BOp) -> What
    ensures { (rd rs1 rs2 : ℕ) (imm : ℤ) → instr_by result rd rs1 rs2 imm ≡ Some (B op rs1 rs2 imm) }
{
    match op {
        BOp::Beq => What::Beq,
        BOp::Bne => What::Bne,
        BOp::Blt => What::Blt,
        BOp::Bge => What::Bge,
        BOp::Bltu => What::Bltu,
        BOp::Bgeu => What::Bgeu,
    }
}

pub(crate) fn what_u(op: UOp) -> What
    ensures { (rd rs1 rs2 : ℕ) (imm : ℤ) → instr_by result rd rs1 rs2 imm ≡ Some (U op rd (upper_bits imm)) }
{
    match op {
        UOp::Lui => What::Lui,
        UOp::Auipc => What::Auipc,
    }
}
