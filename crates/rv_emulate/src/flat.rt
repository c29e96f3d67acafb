// Instructions as a run reads them.

ghost use Rattle.std.specs.Prelude.{◌≡◌, ◌<◌, IfSome};
ghost use Rattle.rv_isa.specs.InstrWords.{IsInstr};
ghost use Rattle.rv_emulate.specs.FlatInstrs.{instr_by};

use crate::what::{What, what_b, what_i, what_r, what_s, what_u};
use rv_isa::Instr;

/// What an instruction does, its registers, of which those that it lacks are x0, and its immediate,
/// which of LUI and AUIPC is the upper 20 bits.
#[derive(Clone, Copy)]
pub(crate) struct Flat {
    pub(crate) what: What,
    pub(crate) rd: u8,
    pub(crate) rs1: u8,
    pub(crate) rs2: u8,
    pub(crate) imm: i32,
    ghost is_rd: { rd < 32 },
    ghost is_rs1: { rs1 < 32 },
    ghost is_rs2: { rs2 < 32 },
}

/// An instruction, or none, in the flat form.
pub(crate) fn flat_of(instr: Option<Instr>) -> Flat
    requires { IfSome instr IsInstr }
    ensures { instr_by result.what result.rd result.rs1 result.rs2 result.imm ≡ instr }
{
    match instr {
        None => new_flat(What::Illegal, 0, 0, 0, 0),
        Some(Instr::R { op, rd, rs1, rs2 }) => new_flat(what_r(op), rd, rs1, rs2, 0),
        Some(Instr::I { op, rd, rs1, imm }) => new_flat(what_i(op), rd, rs1, 0, i32::from(imm)),
        Some(Instr::S { op, rs1, rs2, imm }) => new_flat(what_s(op), 0, rs1, rs2, i32::from(imm)),
        Some(Instr::B { op, rs1, rs2, imm }) => new_flat(what_b(op), 0, rs1, rs2, i32::from(imm)),
        Some(Instr::U { op, rd, imm }) => new_flat(what_u(op), rd, 0, 0, imm.cast_signed()),
        Some(Instr::J { rd, imm }) => new_flat(What::Jal, rd, 0, 0, imm),
        Some(Instr::Ecall) => new_flat(What::Ecall, 0, 0, 0, 0),
    }
}

fn new_flat(what: What, rd: u8, rs1: u8, rs2: u8, imm: i32) -> Flat
    requires rd { rd < 32 }
    requires rs1 { rs1 < 32 }
    requires rs2 { rs2 < 32 }
    ensures what { result.what ≡ what }
    ensures rd { result.rd ≡ rd }
    ensures rs1 { result.rs1 ≡ rs1 }
    ensures rs2 { result.rs2 ≡ rs2 }
    ensures imm { result.imm ≡ imm }
{
    Flat {
        what,
        rd,
        rs1,
        rs2,
        imm,
    }
}
