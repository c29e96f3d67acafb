// Numbers in bytes, the lowest first.
ghost use Rattle.std.specs.Prelude.{◌≡◌, ◌++◌, IfOk, length};
ghost use Rattle.sil_base.specs.Bytes.{number, low_bytes};
ghost use Rattle.image_file.specs.Spelling.{numbers_in};

use byteorder::{ByteOrder, LittleEndian};
use std::alloc::AllocError;

/// The number in two bytes.
pub(crate) fn number_16(bytes: &[u8]) -> u16
    requires { length bytes.now ≡ 2 }
    ensures { result ≡ number bytes.now }
{
    LittleEndian::read_u16(bytes)
}

/// The number in four bytes.
pub(crate) fn number_32(bytes: &[u8]) -> u32
    requires { length bytes.now ≡ 4 }
    ensures { result ≡ number bytes.now }
{
    LittleEndian::read_u32(bytes)
}

/// The number in eight bytes.
pub(crate) fn number_64(bytes: &[u8]) -> u64
    requires { length bytes.now ≡ 8 }
    ensures { result ≡ number bytes.now }
{
    LittleEndian::read_u64(bytes)
}

/// The byte of a number.
pub(crate) fn bytes_8(n: u8) -> [u8; 1]
    ensures { result ≡ low_bytes 1 n }
{
    n.to_le_bytes()
}

/// The two bytes of a number.
pub(crate) fn bytes_16(n: u16) -> [u8; 2]
    ensures { result ≡ low_bytes 2 n }
{
    n.to_le_bytes()
}

/// The four bytes of a number.
pub(crate) fn bytes_32(n: u32) -> [u8; 4]
    ensures { result ≡ low_bytes 4 n }
{
    n.to_le_bytes()
}

/// The eight bytes of a number.
pub(crate) fn bytes_64(n: u64) -> [u8; 8]
    ensures { result ≡ low_bytes 8 n }
{
    n.to_le_bytes()
}

/// Appends numbers of four bytes each.
#[tactic(auto, unfolding(crate::specs::Spelling::numbers_in))]
pub(crate) fn put_all_32(out: &mut Vec<u8>, numbers: &[u32]) -> Result<(), AllocError>
    ensures { IfOk result (λ _. out.new.items ≡ out.old.items ++ numbers_in 4 numbers.now) }
{
    for number in numbers {
        out.extend_from_slice(&bytes_32(*number))?;
    }
    Ok(())
}

/// Appends numbers of eight bytes each.
#[tactic(auto, unfolding(crate::specs::Spelling::numbers_in))]
pub(crate) fn put_all_64(out: &mut Vec<u8>, numbers: &[u64]) -> Result<(), AllocError>
    ensures { IfOk result (λ _. out.new.items ≡ out.old.items ++ numbers_in 8 numbers.now) }
{
    for number in numbers {
        out.extend_from_slice(&bytes_64(*number))?;
    }
    Ok(())
}
