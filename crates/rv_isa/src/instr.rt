//! Instructions by their formats (RISC-V unprivileged manual, RV64I and M).

/// Operations of format R, on two registers. Those in W work on the lower 32 bits.
#[derive(Clone, Copy, PartialEq, Eq, Debug)]
pub enum ROp {
    Add,
    Sll,
    Slt,
    Sltu,
    Xor,
    Srl,
    Or,
    And,
    Sub,
    Sra,
    Mul,
    Mulh,
    Mulhsu,
    Mulhu,
    Div,
    Divu,
    Rem,
    Remu,
    Addw,
    Sllw,
    Srlw,
    Subw,
    Sraw,
    Mulw,
    Divw,
    Divuw,
    Remw,
    Remuw,
}

/// Operations of format I, on a register and an immediate of 12 bits: sums and bits, shifts by an amount,
/// loads, JALR and FENCE.
#[derive(Clone, Copy, PartialEq, Eq, Debug)]
pub enum IOp {
    Addi,
    Slti,
    Sltiu,
    Xori,
    Ori,
    Andi,
    Slli,
    Srli,
    Srai,
    Lb,
    Lh,
    Lw,
    Ld,
    Lbu,
    Lhu,
    Lwu,
    Jalr,
    Addiw,
    Slliw,
    Srliw,
    Sraiw,
    Fence,
}

/// Operations of format S, the stores.
#[derive(Clone, Copy, PartialEq, Eq, Debug)]
pub enum SOp {
    Sb,
    Sh,
    Sw,
    Sd,
}

/// Operations of format B, the conditional branches.
#[derive(Clone, Copy, PartialEq, Eq, Debug)]
pub enum BOp {
    Beq,
    Bne,
    Blt,
    Bge,
    Bltu,
    Bgeu,
}

/// Operations of format U, on an immediate of 20 upper bits.
#[derive(Clone, Copy, PartialEq, Eq, Debug)]
pub enum UOp {
    Lui,
    Auipc,
}

/// One instruction, by its format and with the fields of the manual. Registers are below 32.
#[derive(Clone, Copy, PartialEq, Eq, Debug)]
pub enum Instr {
    /// `rd` takes the result of `rs1` and `rs2`.
    R { op: ROp, rd: u8, rs1: u8, rs2: u8 },
    /// `imm` from -2048 to 2047, of loads and JALR in bytes; of a shift its amount, from 0 to 63, in W
    /// forms to 31. Of FENCE all fields are kept, and none is used.
    I { op: IOp, rd: u8, rs1: u8, imm: i16 },
    /// The bytes of `rs2` go to `rs1 + imm`, `imm` in bytes from -2048 to 2047.
    S { op: SOp, rs1: u8, rs2: u8, imm: i16 },
    /// `imm` in bytes from the branch itself, even, from -4096 to 4094.
    B { op: BOp, rs1: u8, rs2: u8, imm: i16 },
    /// `imm` is the upper 20 bits as a number below 2^20.
    U { op: UOp, rd: u8, imm: u32 },
    /// JAL, `imm` in bytes from the jump itself, even, from -1048576 to 1048574.
    J { rd: u8, imm: i32 },
    /// ECALL.
    Ecall,
}
