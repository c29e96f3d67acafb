// The entries of statements, sixteen bytes each.
ghost use Rattle.std.specs.Prelude.{◌≡◌, ◌++◌, ◌*◌, ◌^◌, ◌<◌, List, length, map, MatchResult, IfOk, MatchOption};
ghost use Rattle.std.specs.List.{flat_map};
ghost use Rattle.image_file.specs.Image.{StatementEntry, entry_of};
ghost use Rattle.image_file.specs.Spelling.{entry_part};
ghost use Rattle.image_file.specs.ImageReading.{FitEntries, StopsAt};

use crate::numbers::{bytes_16, bytes_32, bytes_64, number_16, number_32, number_64};
use crate::stop::ImageStop;
use sil_macros::{Macro, macro_at, number_of_macro};
use std::alloc::{AllocError, Global};

/// The bytes of an entry.
pub(crate) const ENTRY_BYTES: usize = 16;

// Where an entry's parts begin: the place, the card, the number of the macro, and zeros.
const PLACE_AT: usize = 0;

const CARD_AT: usize = 8;

const NAME_AT: usize = 12;

const ZEROS_AT: usize = 14;

/// Appends the entries of statements.
pub(crate) fn put_entries(
    out: &mut Vec<u8>,
    entries: &[(u64, u32, Macro)],
) -> Result<(), AllocError>
    ensures { IfOk result (λ _. out.new.items ≡ out.old.items ++ flat_map entry_part (map entry_of entries.now)) }
{
    for &(place, card, name) in entries {
        out.extend_from_slice(&entry_bytes(place, card, name))?;
    }
    Ok(())
}

/// The bytes of an entry.
fn entry_bytes(place: u64, card: u32, name: Macro) -> [u8; ENTRY_BYTES]
    ensures { result ≡ entry_part (entry_of (place, card, name)) }
{
    let mut bytes = [0; ENTRY_BYTES];
    bytes[PLACE_AT..CARD_AT].copy_from_slice(&bytes_64(place));
    bytes[CARD_AT..NAME_AT].copy_from_slice(&bytes_32(card));
    bytes[NAME_AT..ZEROS_AT].copy_from_slice(&bytes_16(number_of_macro(name)));
    bytes
}

/// The place, card and macro of each statement, in bytes that are there.
pub(crate) fn read_entries(
    alloc: Global,
    bytes: &[u8],
    count: usize,
) -> Result<Vec<(u64, u32, Macro)>, ImageStop>
    requires { length bytes.now ≡ 16 * count }
    ensures { MatchResult result
        (λ v. (bytes.now ≡ flat_map entry_part (map entry_of v.items)) × (length v.items ≡ count) × FitEntries (map entry_of v.items))
        (λ e. StopsAt e 6 ((es : List StatementEntry) → ¬ (bytes.now ≡ flat_map entry_part es))) }
{
    let mut entries = Vec::new(alloc);
    let mut rest = bytes;
    while let Some((entry, more)) = rest.split_at_checked(ENTRY_BYTES) {
        let Some(entry) = read_entry(entry) else {
            return Err(ImageStop::Part(6));
        };
        entries.push(entry).map_err(|_| ImageStop::Memory)?;
        rest = more;
    }
    Ok(entries)
}

/// A place, a card, the number of a macro, and zeros.
fn read_entry(bytes: &[u8]) -> Option<(u64, u32, Macro)>
    requires { length bytes.now ≡ 16 }
    ensures { MatchOption result ((e : StatementEntry) → ¬ (bytes.now ≡ entry_part e))
        (λ t. (bytes.now ≡ entry_part (entry_of t)) × (t.0 < 256 ^ 8) × (t.1 < 256 ^ 4)) }
{
    let Some(name) = macro_at(number_16(&bytes[NAME_AT..ZEROS_AT])) else {
        return None;
    };
    if number_16(&bytes[ZEROS_AT..ENTRY_BYTES]) != 0 {
        return None;
    }
    Some((
        number_64(&bytes[PLACE_AT..CARD_AT]),
        number_32(&bytes[CARD_AT..NAME_AT]),
        name,
    ))
}
