// The parts of bytes, one after another.
ghost use Rattle.std.specs.Prelude.{◌≡◌, ◌*◌, ◌^◌, ◌<◌, ◌++◌, All, length, IfOk, IfErr, MatchResult};
ghost use Rattle.image_file.specs.Spelling.{FitAll, numbers_in};
ghost use Rattle.image_file.specs.ImageReading.{StopsAt};

use crate::stop::ImageStop;
use byteorder::{ByteOrder, LittleEndian};
use std::alloc::Global;

/// So many bytes, and those after them. A part that is cut short is refused by its number.
pub(crate) fn cut(bytes: &[u8], len: usize, part: u8) -> Result<(&[u8], &[u8]), ImageStop>
    ensures { MatchResult result (λ r. (bytes.now ≡ r.0.now ++ r.1.now) × (length r.0.now ≡ len))
        (λ e. (e ≡ ImageStop.Part part) × (length bytes.now < len)) }
{
    bytes.split_at_checked(len).ok_or(ImageStop::Part(part))
}

/// A copy of so many bytes, and those after them. Memory is asked for once the bytes are there.
pub(crate) fn read_bytes(
    alloc: Global,
    bytes: &[u8],
    len: usize,
    part: u8,
) -> Result<(Vec<u8>, &[u8]), ImageStop>
    ensures { MatchResult result (λ r. (bytes.now ≡ r.0.items ++ r.1.now) × (length r.0.items ≡ len))
        (λ e. StopsAt e part (length bytes.now < len)) }
{
    let (part, rest) = cut(bytes, len, part)?;
    let copy = Vec::from_slice(alloc, part).map_err(|_| ImageStop::Memory)?;
    Ok((copy, rest))
}

/// The code words in so many bytes that are there.
pub(crate) fn read_words(alloc: Global, bytes: &[u8], count: usize) -> Result<Vec<u32>, ImageStop>
    requires size { length bytes.now ≡ 4 * count }
    ensures words { IfOk result (λ words. bytes.now ≡ numbers_in 4 words.items) }
    ensures length { IfOk result (λ words. length words.items ≡ count) }
    ensures wide { IfOk result (λ words. All (λ w. w < 2 ^ 32) words.items) }
    ensures memory { IfErr result (λ e. e ≡ ImageStop.Memory) }
{
    let mut words = vec![in alloc; 0u32; count].map_err(|_| ImageStop::Memory)?;
    LittleEndian::read_u32_into(bytes, &mut words);
    Ok(words)
}

/// The five counts.
pub(crate) fn read_numbers(bytes: &[u8]) -> [u32; 5]
    requires { length bytes.now ≡ 20 }
    ensures numbers { bytes.now ≡ numbers_in 4 result }
    ensures fit { FitAll 4 result }
{
    let mut counts = [0; 5];
    LittleEndian::read_u32_into(bytes, &mut counts);
    counts
}

/// The fourteen parameters.
pub(crate) fn read_parameters(bytes: &[u8]) -> [u64; 14]
    requires { length bytes.now ≡ 112 }
    ensures numbers { bytes.now ≡ numbers_in 8 result }
    ensures fit { FitAll 8 result }
{
    let mut parameters = [0; 14];
    LittleEndian::read_u64_into(bytes, &mut parameters);
    parameters
}
