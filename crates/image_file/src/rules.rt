// The rules of an image's parts.
ghost use Rattle.std.specs.Prelude.{◌≡◌, ◌+◌, ◌*◌, ◌/◌, ◌%◌, ◌^◌, ◌<◌, ◌≤◌, All, ◌↔◌, IsTrue, length, map, take};
ghost use Rattle.layout_params.specs.Areas.{all_cells};
ghost use Rattle.image_file.specs.Image.{places_rise, entry_of};
ghost use Rattle.image_file.specs.TableEntries.{entries_fit};

use crate::table_entries::{TABLE_ENTRY_BYTES, entry_fits};
use layout_params::{Layout, Settings};
use sil_base::{
    FIRST_WORD, MAX_CELLS, MAX_CONSTANT_BYTES, MAX_STATEMENTS, MAX_TABLES, MAX_WORDS, TABLE_BYTES,
};
use sil_macros::Macro;

/// Whether counts keep to the limits: of statements, code words, constant bytes, static cells and
/// table bytes.
pub(crate) fn has_room(
    settings: &Settings,
    statements: usize,
    words: usize,
    constants: usize,
    statics: usize,
    table_bytes: usize,
) -> bool
    requires { statics < 2 ^ 63 }
    ensures { IsTrue result ↔ ((statements ≤ MAX_STATEMENTS) × (1 ≤ words) × (words ≤ MAX_WORDS) × (constants ≤ MAX_CONSTANT_BYTES)
        × (all_cells settings.now statics ≤ MAX_CELLS) × (table_bytes ≤ MAX_TABLES * TABLE_BYTES) × (table_bytes % TABLE_BYTES ≡ 0)) }
{
    statements as u64 <= MAX_STATEMENTS
        && (1..=MAX_WORDS).contains(&words)
        && constants <= MAX_CONSTANT_BYTES
        && settings.all_cells(statics) <= MAX_CELLS
        && table_bytes <= MAX_TABLES * TABLE_BYTES
        && table_bytes % TABLE_BYTES == 0
}

/// Whether so many bytes are those of the static cells.
pub(crate) fn has_cells(settings: &Settings, bytes: usize, statics: usize) -> bool
    requires { statics ≤ MAX_CELLS }
    ensures { IsTrue result ↔ (bytes ≡ statics * settings.now.sizes.descr) }
{
    bytes as u64 == statics as u64 * settings.numbers().descr()
}

/// Whether the places are multiples of 4 that rise strictly within so many code words.
#[tactic(auto, using(crate::proofs::PartRules::cards_fit))]
pub(crate) fn places_rise(statements: &[(u64, u32, Macro)], words: usize) -> bool
    requires { words ≤ MAX_WORDS }
    ensures places { result ≡ places_rise FIRST_WORD (FIRST_WORD + 4 * words) (map entry_of statements.now) }
    ensures cards { IsTrue result → All (λ e. e.card < 2 ^ 32) (map entry_of statements.now) }
{
    let end = FIRST_WORD + 4 * words as u64;
    let mut least = FIRST_WORD;
    for &(place, _card, _) in statements {
        if place < least || place % 4 != 0 || place >= end {
            return false;
        }
        least = place + 1;
    }
    true
}

/// Whether each kind is 0 or 1.
pub(crate) fn are_kinds(kinds: &[u8]) -> bool
    ensures { IsTrue result ↔ All (λ k. k ≤ 1) kinds.now }
{
    kinds.iter().all(|kind| *kind <= 1)
}

/// Whether every entry of the tables fits.
#[tactic(auto, using(crate::proofs::PartRules::entries_in_turn))]
pub(crate) fn are_tables(tables: &[u8]) -> bool
    requires { length tables.now ≤ MAX_TABLES * TABLE_BYTES }
    ensures { result ≡ entries_fit (length tables.now / TABLE_BYTES) (length tables.now / 16) tables.now }
{
    let count = tables.len() / TABLE_BYTES;
    let mut rest = tables;
    while let Some((entry, more)) = rest.split_at_checked(TABLE_ENTRY_BYTES) {
        if !entry_fits(count, entry) {
            return false;
        }
        rest = more;
    }
    true
}
