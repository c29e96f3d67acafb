// What instructions compute.

ghost use Rattle.std.specs.Prelude.{◌≡◌, ◌-◌, ◌*◌, ◌%◌, ◌/◌, ◌^◌, ◌<◌, ◌⊎◌, ◌==◌, ◌*ℤ◌, if◌then◌else◌};
ghost use Rattle.std.specs.Int.{w32};
ghost use Rattle.rv_isa.specs.InstrWords.{twos};
ghost use Rattle.rv_isa.specs.declared.instr.ROp.TheVariants as r;
ghost use Rattle.rv_emulate.specs.InstrValues.{r_value, extended, extended_from, taken, quotient, remainder, upper_half};

use rv_isa::{BOp, ROp};

#[inline(always)]
pub(crate) fn value_of_r(op: ROp, x: u64, y: u64) -> u64
    ensures { result ≡ r_value op x y }
{
    match op {
        ROp::Add => x.wrapping_add(y),
        ROp::Sub => x.wrapping_sub(y),
        ROp::Sll => x << (y % 64),
        ROp::Srl => x >> (y % 64),
        ROp::Sra => (x.cast_signed() >> (y % 64)).cast_unsigned(),
        ROp::Slt => u64::from(x.cast_signed() < y.cast_signed()),
        ROp::Sltu => u64::from(x < y),
        ROp::Xor => x ^ y,
        ROp::Or => x | y,
        ROp::And => x & y,
        ROp::Mul => x.wrapping_mul(y),
        ROp::Mulh => high_signed(x, y),
        ROp::Mulhsu => high_mixed(x, y),
        ROp::Mulhu => high(x, y),
        ROp::Div => div(x, y),
        ROp::Divu => divu(x, y),
        ROp::Rem => rem(x, y),
        ROp::Remu => remu(x, y),
        ROp::Addw => extend(low(x.wrapping_add(y))),
        ROp::Subw => extend(low(x.wrapping_sub(y))),
        ROp::Sllw => extend(low(x << (y % 32))),
        ROp::Srlw => extend(low(x) >> (y % 32)),
        ROp::Sraw => i64::from(low(x).cast_signed() >> (y % 32)).cast_unsigned(),
        ROp::Mulw => extend(low(x.wrapping_mul(y))),
        ROp::Divw => divw(low(x), low(y)),
        ROp::Divuw => divuw(low(x), low(y)),
        ROp::Remw => remw(low(x), low(y)),
        ROp::Remuw => remuw(low(x), low(y)),
    }
}

/// The lower 32 bits.
fn low(x: u64) -> u32
    ensures { result ≡ x % 2 ^ 32 }
{
    (x % (1 << 32)) as u32
}

/// The upper 64 bits of a product.
fn high(x: u64, y: u64) -> u64
    ensures { result ≡ r_value r.Mulhu x y }
{
    ((u128::from(x) * u128::from(y)) >> 64) as u64
}

fn high_signed(x: u64, y: u64) -> u64
    ensures { result ≡ r_value r.Mulh x y }
{
    upper_half(product(x.cast_signed(), y.cast_signed()))
}

fn product(x: i64, y: i64) -> i128
    ensures { result ≡ x *ℤ y }
{
    i128::from(x) * i128::from(y)
}

fn high_mixed(x: u64, y: u64) -> u64
    ensures { result ≡ r_value r.Mulhsu x y }
{
    upper_half(i128::from(x.cast_signed()) * i128::from(y))
}

fn upper_half(product: i128) -> u64
    ensures { result ≡ upper_half product }
{
    (product.cast_unsigned() >> 64) as u64
}

fn div(x: u64, y: u64) -> u64
    ensures { result ≡ r_value r.Div x y }
{
    if y == 0 {
        u64::MAX
    } else {
        x.cast_signed()
            .wrapping_div(y.cast_signed())
            .cast_unsigned()
    }
}

fn divu(x: u64, y: u64) -> u64
    ensures { result ≡ r_value r.Divu x y }
{
    if y == 0 { u64::MAX } else { x / y }
}

fn rem(x: u64, y: u64) -> u64
    ensures { result ≡ r_value r.Rem x y }
{
    if y == 0 {
        x
    } else {
        x.cast_signed()
            .wrapping_rem(y.cast_signed())
            .cast_unsigned()
    }
}

fn remu(x: u64, y: u64) -> u64
    ensures { result ≡ r_value r.Remu x y }
{
    if y == 0 { x } else { x % y }
}

fn divw(x: u32, y: u32) -> u64
    ensures { result ≡ (if y == 0 then 2 ^ 64 - 1 else extended (quotient w32 x y)) }
{
    if y == 0 {
        u64::MAX
    } else {
        extend(
            x.cast_signed()
                .wrapping_div(y.cast_signed())
                .cast_unsigned(),
        )
    }
}

fn divuw(x: u32, y: u32) -> u64
    ensures { result ≡ (if y == 0 then 2 ^ 64 - 1 else extended (x / y)) }
{
    if y == 0 { u64::MAX } else { extend(x / y) }
}

fn remw(x: u32, y: u32) -> u64
    ensures { result ≡ (if y == 0 then extended x else extended (remainder w32 x y)) }
{
    if y == 0 {
        extend(x)
    } else {
        extend(
            x.cast_signed()
                .wrapping_rem(y.cast_signed())
                .cast_unsigned(),
        )
    }
}

fn remuw(x: u32, y: u32) -> u64
    ensures { result ≡ (if y == 0 then extended x else extended (x % y)) }
{
    if y == 0 { extend(x) } else { extend(x % y) }
}

#[inline(always)]
pub(crate) fn is_taken(op: BOp, x: u64, y: u64) -> bool
    ensures { result ≡ taken op x y }
{
    match op {
        BOp::Beq => x == y,
        BOp::Bne => x != y,
        BOp::Blt => x.cast_signed() < y.cast_signed(),
        BOp::Bge => x.cast_signed() >= y.cast_signed(),
        BOp::Bltu => x < y,
        BOp::Bgeu => x >= y,
    }
}

/// 32 bits, extended by their sign to 64.
pub(crate) fn extend(n: u32) -> u64
    ensures { result ≡ extended n }
{
    i64::from(n.cast_signed()).cast_unsigned()
}

/// A number in 1, 2 or 4 bytes, extended by its sign to 64 bits.
pub(crate) fn extend_bytes(width: usize, n: u64) -> u64
    requires width { (width ≡ 1) ⊎ (width ≡ 2) ⊎ (width ≡ 4) }
    requires n { n < 256 ^ width }
    ensures { result ≡ extended_from (8 * width) n }
{
    match width {
        1 => i64::from((n as u8).cast_signed()).cast_unsigned(),
        2 => i64::from((n as u16).cast_signed()).cast_unsigned(),
        _ => extend(n as u32),
    }
}

/// An immediate in 64 bits.
pub(crate) fn wide(imm: i32) -> u64
    ensures { result ≡ twos 64 imm }
{
    i64::from(imm).cast_unsigned()
}
