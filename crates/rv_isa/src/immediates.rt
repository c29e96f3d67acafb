//! Immediates to their bits in two's complement, and back.

ghost use Rattle.std.specs.Prelude.{◌≡◌, ◌<◌, ◌^◌, ◌%◌, IsTrue};
ghost use Rattle.rv_isa.specs.Decoded.{immediate_i, signed, takes_bits};
ghost use Rattle.rv_isa.specs.InstrRows.{shift_row};
ghost use Rattle.rv_isa.specs.InstrWords.{twos, twelve, FitsI, IsFrom, IsEven};

use crate::instr::IOp;

/// The 12 bits of an immediate of format I, where a shift by an amount has its upper bits.
pub(crate) fn bits_i(op: IOp, imm: i16) -> u16
    requires { FitsI (shift_row op) imm }
    ensures same { result ≡ twelve (shift_row op) imm }
    ensures below { result < 2 ^ 12 }
{
    match op {
        IOp::Srai => 64 * 0x10 + imm.cast_unsigned(),
        IOp::Sraiw => 32 * 0x20 + imm.cast_unsigned(),
        IOp::Slli | IOp::Srli | IOp::Slliw | IOp::Srliw => imm.cast_unsigned(),
        _ => bits_12(imm),
    }
}

/// The immediate of format I with these bits, which has the upper bits of its shift.
pub(crate) fn from_i(op: IOp, bits: u16) -> i16
    requires below { bits < 2 ^ 12 }
    requires takes { IsTrue (takes_bits (shift_row op) bits) }
    ensures is { result ≡ immediate_i (shift_row op) bits }
    ensures same { twelve (shift_row op) result ≡ bits }
    ensures range { FitsI (shift_row op) result }
{
    match op {
        IOp::Slli | IOp::Srli | IOp::Srai => (bits % 64) as i16,
        IOp::Slliw | IOp::Srliw | IOp::Sraiw => (bits % 32) as i16,
        _ => from_12(bits),
    }
}

/// The 12 bits of an immediate of format I or S with its sign.
pub(crate) fn bits_12(imm: i16) -> u16
    requires { IsFrom 11 imm }
    ensures same { result ≡ twos 12 imm }
    ensures below { result < 2 ^ 12 }
{
    imm.cast_unsigned() % (1 << 12)
}

/// The 13 bits of an immediate of format B.
pub(crate) fn bits_13(imm: i16) -> u16
    requires { IsFrom 12 imm }
    ensures same { result ≡ twos 13 imm }
    ensures below { result < 2 ^ 13 }
{
    imm.cast_unsigned() % (1 << 13)
}

/// The 21 bits of an immediate of format J.
pub(crate) fn bits_21(imm: i32) -> u32
    requires { IsFrom 20 imm }
    ensures same { result ≡ twos 21 imm }
    ensures below { result < 2 ^ 21 }
{
    imm.cast_unsigned() % (1 << 21)
}

/// The immediate of format I or S with these bits.
pub(crate) fn from_12(bits: u16) -> i16
    requires { bits < 2 ^ 12 }
    ensures is { result ≡ signed 11 bits }
    ensures same { twos 12 result ≡ bits }
    ensures range { IsFrom 11 result }
{
    if bits < 1 << 11 {
        bits as i16
    } else {
        bits as i16 - (1 << 12)
    }
}

/// The immediate of format B with these bits.
pub(crate) fn from_13(bits: u16) -> i16
    requires below { bits < 2 ^ 13 }
    requires even { bits % 2 ≡ 0 }
    ensures is { result ≡ signed 12 bits }
    ensures same { twos 13 result ≡ bits }
    ensures range { IsFrom 12 result }
    ensures even { IsEven result }
{
    if bits < 1 << 12 {
        bits as i16
    } else {
        bits as i16 - (1 << 13)
    }
}

/// The immediate of format J with these bits.
pub(crate) fn from_21(bits: u32) -> i32
    requires below { bits < 2 ^ 21 }
    requires even { bits % 2 ≡ 0 }
    ensures is { result ≡ signed 20 bits }
    ensures same { twos 21 result ≡ bits }
    ensures range { IsFrom 20 result }
    ensures even { IsEven result }
{
    if bits < 1 << 20 {
        bits as i32
    } else {
        bits as i32 - (1 << 21)
    }
}
