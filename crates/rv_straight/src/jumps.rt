// Jumps and calls to a place anywhere in the code.
ghost use Rattle.std.specs.Prelude.{◌≡◌, ◌<◌, ◌^◌};
ghost use Rattle.rv_straight.specs.Constants.{lower_of};
ghost use Rattle.rv_straight.specs.Jumps.{distance, far_upper, inverse, jump_if, leap};

use crate::constants::{lower, upper};
use crate::instrs::{branch, immediate, upper_part};
use rv_isa::{BOp, IOp, Instr, UOp};

/// The way from one place to another, in 32 bits.
fn distance(from: u32, to: u32) -> u32
    ensures { result ≡ distance from to }
{
    to.wrapping_sub(from)
}

/// The upper 20 bits of the way, for AUIPC.
pub fn far_upper(from: u32, to: u32) -> u32
    ensures { result ≡ far_upper from to }
{
    (upper(u64::from(distance(from, to))) % (1 << 20)) as u32
}

/// The lower 12 bits of the way, for JALR.
pub fn far_lower(from: u32, to: u32) -> i16
    ensures { result ≡ lower_of (distance from to) }
{
    lower(u64::from(distance(from, to)))
}

/// From a place to another, through a register, with the next place in rd.
#[tactic(auto, unfolding(crate::specs::Jumps::leap))]
pub fn leap(through: u8, rd: u8, place: u32, to: u32) -> [Instr; 2]
    ensures { result ≡ leap through rd place to }
{
    [
        upper_part(UOp::Auipc, through, far_upper(place, to)),
        immediate(IOp::Jalr, rd, through, far_lower(place, to)),
    ]
}

/// The comparison that holds where the other doesn't.
pub fn inverse(op: BOp) -> BOp
    ensures { result ≡ inverse op }
{
    match op {
        BOp::Beq => BOp::Bne,
        BOp::Bne => BOp::Beq,
        BOp::Blt => BOp::Bge,
        BOp::Bge => BOp::Blt,
        BOp::Bltu => BOp::Bgeu,
        BOp::Bgeu => BOp::Bltu,
    }
}

/// A jump from a place to another where a comparison of two registers holds, through x28.
#[tactic(auto, unfolding(crate::specs::Jumps::jump_if))]
pub fn jump_if(op: BOp, rs1: u8, rs2: u8, place: u32, to: u32) -> [Instr; 3]
    requires { place < 2 ^ 31 }
    ensures { result ≡ jump_if op rs1 rs2 place to }
{
    let from = place + 4;
    [
        branch(inverse(op), rs1, rs2, 12),
        upper_part(UOp::Auipc, 28, far_upper(from, to)),
        immediate(IOp::Jalr, 0, 28, far_lower(from, to)),
    ]
}
