//! Words to instructions.

ghost use Rattle.std.specs.Prelude.{◌≡◌, ◌⊎◌, ◌<◌, ◌^◌};
ghost use Rattle.rv_isa.specs.InstrWords.{IsInstr, fields_of, AreParts, Decodes, joined, fields_u};
ghost use Rattle.rv_isa.specs.Decoded.{decoded, Reads, decoded_parts, decoded_r, decoded_s, decoded_b, decoded_i, decoded_ecall, signed, bits_j, upper};
ghost use Rattle.rv_isa.specs.declared.instr.Instr.{Instr};

use crate::fields::split;
use crate::immediates::{from_12, from_13, from_21, from_i};
use crate::instr::{Instr, UOp};
use crate::parts::Parts;
use crate::rows::{b_op, i_op, r_op, s_op};

/// The instruction of a word, or `None` where no instruction has the word
/// (RISC-V unprivileged manual, RV64I and M).
#[tactic(auto, unfolding(crate::specs::Decoded::decoded), using(crate::proofs::Back::parts_joined))]
pub fn decode(word: u32) -> Option<Instr>
    ensures same { result ≡ decoded word }
    ensures reads { Reads result word }
{
    instr_of(split(word))
}

#[tactic(auto, unfolding(crate::specs::Decoded::decoded_parts))]
fn instr_of(f: Parts) -> Option<Instr>
    requires { AreParts f }
    ensures same { result ≡ decoded_parts f }
    ensures reads { Decodes result f }
{
    match f.opcode {
        0x33 | 0x3b => r_instr(f),
        0x13 | 0x1b | 0x03 | 0x67 | 0x0f => i_instr(f),
        0x23 => s_instr(f),
        0x63 => b_instr(f),
        0x37 => Some(Instr::U {
            op: UOp::Lui,
            rd: f.rd,
            imm: upper_of(f),
        }),
        0x17 => Some(Instr::U {
            op: UOp::Auipc,
            rd: f.rd,
            imm: upper_of(f),
        }),
        0x6f => Some(j_instr(f)),
        0x73 => ecall(f),
        _ => None,
    }
}

fn r_instr(f: Parts) -> Option<Instr>
    requires parts { AreParts f }
    requires opcode { (f.opcode ≡ 0x33) ⊎ (f.opcode ≡ 0x3b) }
    ensures same { result ≡ decoded_r f }
    ensures reads { Decodes result f }
{
    let op = r_op(f.opcode, f.funct3, f.funct7)?;
    Some(Instr::R {
        op,
        rd: f.rd,
        rs1: f.rs1,
        rs2: f.rs2,
    })
}

fn i_instr(f: Parts) -> Option<Instr>
    requires parts { AreParts f }
    requires opcode { (f.opcode ≡ 0x13) ⊎ (f.opcode ≡ 0x1b) ⊎ (f.opcode ≡ 0x03) ⊎ (f.opcode ≡ 0x67) ⊎ (f.opcode ≡ 0x0f) }
    ensures same { result ≡ decoded_i f }
    ensures reads { Decodes result f }
{
    let bits = f.rs2 as u16 + 32 * f.funct7 as u16;
    let op = i_op(f.opcode, f.funct3, bits)?;
    Some(Instr::I {
        op,
        rd: f.rd,
        rs1: f.rs1,
        imm: from_i(op, bits),
    })
}

fn s_instr(f: Parts) -> Option<Instr>
    requires parts { AreParts f }
    requires opcode { f.opcode ≡ 0x23 }
    ensures same { result ≡ decoded_s f }
    ensures reads { Decodes result f }
{
    let op = s_op(f.funct3)?;
    let imm = from_12(f.rd as u16 + 32 * f.funct7 as u16);
    Some(Instr::S {
        op,
        rs1: f.rs1,
        rs2: f.rs2,
        imm,
    })
}

fn b_instr(f: Parts) -> Option<Instr>
    requires parts { AreParts f }
    requires opcode { f.opcode ≡ 0x63 }
    ensures same { result ≡ decoded_b f }
    ensures reads { Decodes result f }
{
    let op = b_op(f.funct3)?;
    let bits = f.rd as u16 / 2 * 2
        + (1 << 11) * (f.rd as u16 % 2)
        + 32 * (f.funct7 as u16 % 64)
        + (1 << 12) * (f.funct7 as u16 / 64);
    Some(Instr::B {
        op,
        rs1: f.rs1,
        rs2: f.rs2,
        imm: from_13(bits),
    })
}

fn j_instr(f: Parts) -> Instr
    requires parts { AreParts f }
    requires opcode { f.opcode ≡ 0x6f }
    ensures same { result ≡ Instr.J f.rd (signed 20 (bits_j (upper f))) }
    ensures reads { IsInstr result × (fields_of result ≡ f) }
{
    let upper = upper_of(f);
    let bits = (1 << 12) * (upper % (1 << 8))
        + (1 << 11) * (upper / (1 << 8) % 2)
        + 2 * (upper / (1 << 9) % (1 << 10))
        + (1 << 20) * (upper / (1 << 19));
    Instr::J {
        rd: f.rd,
        imm: from_21(bits),
    }
}

fn ecall(f: Parts) -> Option<Instr>
    requires parts { AreParts f }
    requires opcode { f.opcode ≡ 0x73 }
    ensures same { result ≡ decoded_ecall f }
    ensures reads { Decodes result f }
{
    if f.rd == 0 && f.funct3 == 0 && f.rs1 == 0 && f.rs2 == 0 && f.funct7 == 0 {
        Some(Instr::Ecall)
    } else {
        None
    }
}

/// The upper 20 bits.
fn upper_of(f: Parts) -> u32
    requires { AreParts f }
    ensures below { result < 2 ^ 20 }
    ensures same { fields_u f.opcode f.rd result ≡ f }
    ensures is { result ≡ upper f }
{
    f.funct3 as u32 + 8 * f.rs1 as u32 + (1 << 8) * f.rs2 as u32 + (1 << 13) * f.funct7 as u32
}
