// The parts that the counts announce.
ghost use Rattle.std.specs.Prelude.{◌≡◌, ◌++◌, ◌*◌, ◌≤◌, [], List, ℕ, take, drop, IfOk, IfErr, MatchResult};
ghost use Rattle.layout_params.specs.Parameters as parameters;
ghost use Rattle.layout_params.specs.Parameters.{AreLegalSettings};
ghost use Rattle.image_file.specs.ImageGrammar.{Begins, Stand, StatementsPart, WordsPart, TablesPart, head_parts, parts, AreWithin, IsImageFile, IsRefused};
ghost use Rattle.image_file.specs.Image.{Image, image_of};
ghost use Rattle.image_file.specs.ImageReading.{StopsAt, Misses};

use crate::counts::Counts;
use crate::cursor::{cut, read_bytes, read_words};
use crate::entries::{ENTRY_BYTES, read_entries};
use crate::image::Image;
use crate::rules::{are_tables, places_rise};
use crate::stop::ImageStop;
use crate::version::read_kinds;
use layout_params::{Layout, Settings};
use sil_base::{MAX_TABLES, MAX_WORDS};
use sil_macros::Macro;
use std::alloc::Global;

/// The image of the settings, the counts and the bytes after them.
pub(crate) fn read_body(
    alloc: Global,
    settings: Settings,
    counts: &Counts,
    bytes: &[u8],
) -> Result<Image, ImageStop>
    requires legal { AreLegalSettings settings }
    requires within { AreWithin settings counts.now }
    ensures { (whole : List ℕ) → Stand head_parts counts.now (image_of settings [] [] [] [] [] []) whole bytes.now
        → MatchResult result (λ i. IsImageFile i whole) (λ e. IsRefused e whole) }
{
    let (statements, rest) = read_statements(alloc, counts, bytes)?;
    let (words, rest) = read_code(alloc, counts, rest)?;
    let data = read_data(alloc, &settings, counts, rest)?;
    Ok(Image::of_parts(
        settings,
        statements,
        words,
        data.constants,
        data.cells,
        data.kinds,
        data.tables,
    ))
}

/// The place, card and macro of each statement, and the bytes after them.
fn read_statements<'a>(
    alloc: Global,
    counts: &Counts,
    bytes: &'a [u8],
) -> Result<(Vec<(u64, u32, Macro)>, &'a [u8]), ImageStop>
    requires { counts.now.words ≤ MAX_WORDS }
    ensures { MatchResult result
        (λ r. (settings : parameters.Settings) → Begins StatementsPart counts.now (image_of settings r.0.items [] [] [] [] []) bytes.now r.1.now)
        (λ e. StopsAt e 6 (Misses StatementsPart counts.now bytes.now)) }
{
    let count = counts.statements as usize;
    let (part, rest) = cut(bytes, ENTRY_BYTES * count, 6)?;
    let statements = read_entries(alloc, part, count)?;
    if !places_rise(&statements, counts.words as usize) {
        return Err(ImageStop::Part(6));
    }
    Ok((statements, rest))
}

/// The code words, and the bytes after them.
fn read_code<'a>(
    alloc: Global,
    counts: &Counts,
    bytes: &'a [u8],
) -> Result<(Vec<u32>, &'a [u8]), ImageStop>
    ensures { MatchResult result
        (λ r. (settings : parameters.Settings) → Begins WordsPart counts.now (image_of settings [] r.0.items [] [] [] []) bytes.now r.1.now)
        (λ e. StopsAt e 7 (Misses WordsPart counts.now bytes.now)) }
{
    let count = counts.words as usize;
    let (part, rest) = cut(bytes, 4 * count, 7)?;
    Ok((read_words(alloc, part, count)?, rest))
}

/// The constants, the static cells, their kinds and the tables.
#[derive(Drop)]
struct Data {
    constants: Vec<u8>,
    cells: Vec<u8>,
    kinds: Vec<u8>,
    tables: Vec<u8>,
}

/// The constants, the static cells, their kinds and the tables, with nothing after them.
fn read_data(
    alloc: Global,
    settings: &Settings,
    counts: &Counts,
    bytes: &[u8],
) -> Result<Data, ImageStop>
    requires { AreWithin settings.now counts.now }
    ensures data_parts { IfOk result (λ d. Stand (drop 7 parts) counts.now
        (image_of settings.now [] [] d.constants.items d.cells.items d.kinds.items d.tables.items) bytes.now []) }
    ensures refused { (i : Image) (whole : List ℕ) → i.settings ≡ settings.now → Stand (take 7 parts) counts.now i whole bytes.now
        → IfErr result (λ e. IsRefused e whole) }
{
    let cell_bytes = counts.cells as usize * settings.numbers().descr() as usize;
    let (constants, rest) = read_bytes(alloc, bytes, counts.constants as usize, 8)?;
    let (cells, rest) = read_bytes(alloc, rest, cell_bytes, 9)?;
    let (kinds, rest) = read_kinds(alloc, rest, counts.cells as usize)?;
    let (tables, rest) = read_tables(alloc, counts, rest)?;
    if !rest.is_empty() {
        return Err(ImageStop::Part(12));
    }
    Ok(Data {
        constants,
        cells,
        kinds,
        tables,
    })
}

/// The tables, and the bytes after them.
fn read_tables<'a>(
    alloc: Global,
    counts: &Counts,
    bytes: &'a [u8],
) -> Result<(Vec<u8>, &'a [u8]), ImageStop>
    requires { counts.now.tables ≤ MAX_TABLES }
    ensures { MatchResult result
        (λ r. (settings : parameters.Settings) → Begins TablesPart counts.now (image_of settings [] [] [] [] [] r.0.items) bytes.now r.1.now)
        (λ e. StopsAt e 11 (Misses TablesPart counts.now bytes.now)) }
{
    let (tables, rest) = read_bytes(alloc, bytes, counts.table_bytes(), 11)?;
    if !are_tables(&tables) {
        return Err(ImageStop::Part(11));
    }
    Ok((tables, rest))
}
