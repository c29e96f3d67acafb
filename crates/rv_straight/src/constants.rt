// Numbers in registers.
ghost use Rattle.std.specs.Prelude.{◌≡◌, ◌++◌, OnOk};
ghost use Rattle.rv_straight.specs.Constants.{constant, constant_12, constant_32, constant_64, is_short, is_word, lower_of, upper_of};

use crate::instrs::{immediate, upper_part};
use rv_isa::{IOp, Instr, UOp};
use std::alloc::AllocError;

/// The upper part of a number, one more where the lower part is negative.
pub fn upper(n: u64) -> u64
    ensures { result ≡ upper_of n }
{
    n / (1 << 12) + n % (1 << 12) / (1 << 11)
}

/// The lower 12 bits of a number, with their sign.
pub fn lower(n: u64) -> i16
    ensures { result ≡ lower_of n }
{
    let low = (n % (1 << 12)) as i16;
    if low < 1 << 11 { low } else { low - (1 << 12) }
}

/// Whether twelve bits hold a number in two's complement.
fn is_short(n: u64) -> bool
    ensures { result ≡ is_short n }
{
    n.wrapping_add(1 << 11) < 1 << 12
}

/// Whether 32 bits do.
fn is_word(n: u64) -> bool
    ensures { result ≡ is_word n }
{
    n.wrapping_add(1 << 31) < 1 << 32
}

fn short(rd: u8, n: u64) -> [Instr; 1]
    ensures { result ≡ constant_12 rd n }
{
    [immediate(IOp::Addi, rd, 0, lower(n))]
}

fn word(rd: u8, n: u64) -> [Instr; 2]
    ensures { result ≡ constant_32 rd n }
{
    [
        upper_part(UOp::Lui, rd, (upper(n) % (1 << 20)) as u32),
        immediate(IOp::Addiw, rd, rd, lower(n)),
    ]
}

fn long(rd: u8, n: u64) -> [Instr; 8]
    ensures { result ≡ constant_64 rd n }
{
    let second = upper(n);
    let third = upper(second);
    let fourth = upper(third);
    [
        upper_part(UOp::Lui, rd, upper(fourth) as u32),
        immediate(IOp::Addi, rd, rd, lower(fourth)),
        immediate(IOp::Slli, rd, rd, 12),
        immediate(IOp::Addi, rd, rd, lower(third)),
        immediate(IOp::Slli, rd, rd, 12),
        immediate(IOp::Addi, rd, rd, lower(second)),
        immediate(IOp::Slli, rd, rd, 12),
        immediate(IOp::Addi, rd, rd, lower(n)),
    ]
}

/// Appends the instructions that make a number of 64 bits in a register: one, two or eight of them.
#[tactic(auto, unfolding(crate::specs::Constants::constant))]
pub fn append_constant(code: &mut Vec<Instr>, rd: u8, n: u64) -> Result<(), AllocError>
    ensures { OnOk result (code.new.items ≡ code.old.items ++ constant rd n) }
{
    if is_short(n) {
        code.extend_from_slice(&short(rd, n))
    } else if is_word(n) {
        code.extend_from_slice(&word(rd, n))
    } else {
        code.extend_from_slice(&long(rd, n))
    }
}
