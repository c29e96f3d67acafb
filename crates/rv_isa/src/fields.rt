//! Words to their six fields, and back.

ghost use Rattle.std.specs.Prelude.{◌≡◌};
ghost use Rattle.rv_isa.specs.InstrWords.{joined, AreParts};

use crate::parts::Parts;

/// The fields of a word.
pub(crate) fn split(word: u32) -> Parts
    ensures parts { AreParts result }
    ensures joined { joined result ≡ word }
{
    Parts {
        opcode: (word & 0x7f) as u8,
        rd: (word >> 7 & 0x1f) as u8,
        funct3: (word >> 12 & 0x7) as u8,
        rs1: (word >> 15 & 0x1f) as u8,
        rs2: (word >> 20 & 0x1f) as u8,
        funct7: (word >> 25) as u8,
    }
}

/// The word of these fields.
pub(crate) fn join(parts: Parts) -> u32
    requires { AreParts parts }
    ensures { result ≡ joined parts }
{
    parts.opcode as u32
        | (parts.rd as u32) << 7
        | (parts.funct3 as u32) << 12
        | (parts.rs1 as u32) << 15
        | (parts.rs2 as u32) << 20
        | (parts.funct7 as u32) << 25
}
