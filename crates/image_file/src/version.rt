// What another version of the file would change: its number, and the bytes of the kinds.
ghost use Rattle.std.specs.Prelude.{◌≡◌, ◌≤◌, ◌++◌, ℕ, List, All, length, IfOk, MatchResult};
ghost use Rattle.image_file.specs.ImageReading.{StopsAt};
ghost use Rattle.image_file.specs.Version.{kinds_part};

use crate::cursor::read_bytes;
use crate::rules::are_kinds;
use crate::stop::ImageStop;
use std::alloc::{AllocError, Global};

/// The version of the file.
pub(crate) const VERSION: u32 = 1;

/// Appends the kinds of the static cells, a byte each.
pub(crate) fn put_kinds(out: &mut Vec<u8>, kinds: &[u8]) -> Result<(), AllocError>
    ensures { IfOk result (λ _. out.new.items ≡ out.old.items ++ kinds_part kinds.now) }
{
    out.extend_from_slice(kinds)
}

/// The kinds of so many static cells, and the bytes after them.
pub(crate) fn read_kinds(
    alloc: Global,
    bytes: &[u8],
    count: usize,
) -> Result<(Vec<u8>, &[u8]), ImageStop>
    ensures { MatchResult result
        (λ r. (bytes.now ≡ kinds_part r.0.items ++ r.1.now) × (length r.0.items ≡ count) × All (λ k. k ≤ 1) r.0.items)
        (λ e. StopsAt e 10 ((kinds rest : List ℕ) → bytes.now ≡ kinds_part kinds ++ rest → length kinds ≡ count
        → ¬ All (λ k. k ≤ 1) kinds)) }
{
    let (kinds, rest) = read_bytes(alloc, bytes, count, 10)?;
    if !are_kinds(&kinds) {
        return Err(ImageStop::Part(10));
    }
    Ok((kinds, rest))
}
