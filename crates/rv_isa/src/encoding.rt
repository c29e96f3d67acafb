//! Instructions to words.

ghost use Rattle.std.specs.Prelude.{◌≡◌, ◌<◌, ◌^◌, ◌%◌};
ghost use Rattle.rv_isa.specs.InstrWords.{IsInstr, word_of, fields_of, AreParts, fields_r, fields_i, fields_s, fields_b, fields_u, upper_j};

use crate::fields::join;
use crate::immediates::{bits_12, bits_13, bits_21, bits_i};
use crate::instr::Instr;
use crate::parts::Parts;
use crate::rows::{row_of_b, row_of_i, row_of_r, row_of_s, row_of_u};

/// The word of an instruction, whose registers are below 32 and whose immediate is in its format's range
/// (RISC-V unprivileged manual, RV64I and M).
pub fn encode(i: Instr) -> u32
    requires { IsInstr i }
    ensures { result ≡ word_of i }
{
    join(parts_of(i))
}

fn parts_of(i: Instr) -> Parts
    requires { IsInstr i }
    ensures same { result ≡ fields_of i }
    ensures parts { AreParts result }
{
    match i {
        Instr::R { op, rd, rs1, rs2 } => register_parts(row_of_r(op), rd, rs1, rs2),
        Instr::I { op, rd, rs1, imm } => immediate_parts(row_of_i(op), rd, rs1, bits_i(op, imm)),
        Instr::S { op, rs1, rs2, imm } => store_parts(row_of_s(op), rs1, rs2, bits_12(imm)),
        Instr::B { op, rs1, rs2, imm } => branch_parts(row_of_b(op), rs1, rs2, bits_13(imm)),
        Instr::U { op, rd, imm } => upper_parts(row_of_u(op), rd, imm),
        Instr::J { rd, imm } => upper_parts(0x6f, rd, upper_of_jump(bits_21(imm))),
        Instr::Ecall => Parts {
            opcode: 0x73,
            rd: 0,
            funct3: 0,
            rs1: 0,
            rs2: 0,
            funct7: 0,
        },
    }
}

/// Format R, of the row's opcode, funct3 and funct7.
fn register_parts(row: (u8, u8, u8), rd: u8, rs1: u8, rs2: u8) -> Parts
    ensures { result ≡ fields_r row rd rs1 rs2 }
{
    Parts {
        opcode: row.0,
        rd,
        funct3: row.1,
        rs1,
        rs2,
        funct7: row.2,
    }
}

/// Format I, of the row's opcode and funct3 and of the immediate's 12 bits.
fn immediate_parts(row: (u8, u8), rd: u8, rs1: u8, bits: u16) -> Parts
    requires { bits < 2 ^ 12 }
    ensures { result ≡ fields_i row rd rs1 bits }
{
    Parts {
        opcode: row.0,
        rd,
        funct3: row.1,
        rs1,
        rs2: (bits % 32) as u8,
        funct7: (bits / 32) as u8,
    }
}

/// Format S, of the immediate's 12 bits.
fn store_parts(funct3: u8, rs1: u8, rs2: u8, bits: u16) -> Parts
    requires { bits < 2 ^ 12 }
    ensures { result ≡ fields_s funct3 rs1 rs2 bits }
{
    Parts {
        opcode: 0x23,
        rd: (bits % 32) as u8,
        funct3,
        rs1,
        rs2,
        funct7: (bits / 32) as u8,
    }
}

/// Format B, of the immediate's 13 bits.
fn branch_parts(funct3: u8, rs1: u8, rs2: u8, bits: u16) -> Parts
    requires funct3 { funct3 < 8 }
    requires rs1 { rs1 < 32 }
    requires rs2 { rs2 < 32 }
    requires bits { bits < 2 ^ 13 }
    requires even { bits % 2 ≡ 0 }
    ensures same { result ≡ fields_b funct3 rs1 rs2 bits }
    ensures parts { AreParts result }
{
    Parts {
        opcode: 0x63,
        rd: (bits / (1 << 11) % 2 + bits % 32) as u8,
        funct3,
        rs1,
        rs2,
        funct7: (bits / 32 % 64 + 64 * (bits / (1 << 12))) as u8,
    }
}

/// Formats U and J, of the upper 20 bits.
fn upper_parts(opcode: u8, rd: u8, upper: u32) -> Parts
    requires opcode { opcode < 2 ^ 7 }
    requires rd { rd < 32 }
    requires upper { upper < 2 ^ 20 }
    ensures same { result ≡ fields_u opcode rd upper }
    ensures parts { AreParts result }
{
    Parts {
        opcode,
        rd,
        funct3: (upper % 8) as u8,
        rs1: (upper / 8 % 32) as u8,
        rs2: (upper / (1 << 8) % 32) as u8,
        funct7: (upper / (1 << 13)) as u8,
    }
}

/// The upper 20 bits of a jump, of the immediate's 21 bits.
fn upper_of_jump(bits: u32) -> u32
    requires { bits < 2 ^ 21 }
    ensures same { result ≡ upper_j bits }
    ensures below { result < 2 ^ 20 }
{
    bits / (1 << 12) % (1 << 8)
        + (1 << 8) * (bits / (1 << 11) % 2)
        + (1 << 9) * (bits / 2 % (1 << 10))
        + (1 << 19) * (bits / (1 << 20))
}
