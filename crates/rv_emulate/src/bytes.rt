// Numbers in bytes, the lowest first.

ghost use Rattle.std.specs.Prelude.{◌≡◌, ◌⊎◌, ◌<◌, ◌^◌, length};
ghost use Rattle.sil_base.specs.Bytes.{number};

/// The number in 1, 2, 4 or 8 bytes.
#[inline(always)]
pub(crate) fn number_of(bytes: &[u8]) -> u64
    requires { (length bytes.now ≡ 1) ⊎ (length bytes.now ≡ 2) ⊎ (length bytes.now ≡ 4) ⊎ (length bytes.now ≡ 8) }
    ensures same { result ≡ number bytes.now }
    ensures small { result < 256 ^ length bytes.now }
{
    match bytes {
        [a] => u64::from(*a),
        [a, b] => u64::from(u16::from_le_bytes([*a, *b])),
        [a, b, c, d] => u64::from(u32::from_le_bytes([*a, *b, *c, *d])),
        [a, b, c, d, e, f, g, h] => u64::from_le_bytes([*a, *b, *c, *d, *e, *f, *g, *h]),
        _ => unreachable!(),
    }
}
