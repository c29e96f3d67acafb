// Images: what a program is installed as.
ghost use Rattle.std.specs.Prelude.{◌≡◌, ◌*◌, ◌≤◌, MatchOption, IfSome, IsNone, IsTrue, ◌↔◌, length, map, slice_get};
ghost use Rattle.std.specs.Option.{option_map};
ghost use Rattle.layout_params.specs.Parameters.{AreLegalSettings, settings_numbers};
ghost use Rattle.layout_params.specs.Areas.{all_cells};
ghost use Rattle.image_file.specs.Image.{IsImage, image_of, entry_of};

use crate::rules::{are_kinds, are_tables, has_cells, has_room, places_rise};
use layout_params::{Layout, Numbers, Params, Settings};
use sil_base::{MAX_CELLS, MAX_CONSTANT_BYTES, MAX_STATEMENTS, MAX_TABLES, MAX_WORDS, TABLE_BYTES};
use sil_macros::Macro;
use std::marker::Model;

/// The image of a program, which keeps to every limit.
#[derive(Drop)]
pub struct Image {
    settings: Settings,
    statements: Vec<(u64, u32, Macro)>,
    words: Vec<u32>,
    constants: Vec<u8>,
    cells: Vec<u8>,
    kinds: Vec<u8>,
    tables: Vec<u8>,
}

impl Model for Image {
    ghost use Rattle.image_file.specs.Image.{Image, IsImage, image_of};

    ghost Value = { Image };

    ghost view = { λ i. image_of i.settings i.statements.items i.words.items i.constants.items i.cells.items i.kinds.items i.tables.items };

    ghost invariant = { λ i. IsImage (image_of i.settings i.statements.items i.words.items i.constants.items i.cells.items i.kinds.items i.tables.items) };
}

impl Image {
    /// The image of these parts: the place, card and macro of each statement, the code words, the
    /// constants, DESCR bytes and one kind byte for each static cell, and the bytes of each table.
    pub fn new(
        params: &Params,
        statements: Vec<(u64, u32, Macro)>,
        words: Vec<u32>,
        constants: Vec<u8>,
        cells: Vec<u8>,
        kinds: Vec<u8>,
        tables: Vec<u8>,
    ) -> Option<Image>
        ensures { let i = image_of params.now.settings statements.items words.items constants.items cells.items kinds.items tables.items
            in MatchOption result (¬ IsImage i) (λ j. j ≡ i) }
    {
        let settings = params.settings().copied();
        if !is_image(
            &settings,
            &statements,
            &words,
            &constants,
            &cells,
            &kinds,
            &tables,
        ) {
            return None;
        }
        Some(Image::of_parts(settings, statements, words, constants, cells, kinds, tables))
    }

    /// The image of parts that are an image's.
    pub(crate) fn of_parts(
        settings: Settings,
        statements: Vec<(u64, u32, Macro)>,
        words: Vec<u32>,
        constants: Vec<u8>,
        cells: Vec<u8>,
        kinds: Vec<u8>,
        tables: Vec<u8>,
    ) -> Image
        requires { IsImage (image_of settings statements.items words.items constants.items cells.items kinds.items tables.items) }
        ensures { result ≡ image_of settings statements.items words.items constants.items cells.items kinds.items tables.items }
    {
        Image {
            settings,
            statements,
            words,
            constants,
            cells,
            kinds,
            tables,
        }
    }

    /// The place, card and macro of a statement; none from the number of statements on.
    pub fn statement(&self, k: u32) -> Option<(u64, u32, Macro)>
        ensures entry { option_map entry_of result ≡ slice_get self.now.statements k }
        ensures none { IsNone result ↔ (length self.now.statements ≤ k) }
    {
        nth(&self.statements, k)
    }

    /// The number of statements.
    pub fn statements(&self) -> u32
        ensures value { result ≡ length self.now.statements }
        ensures most { result ≤ MAX_STATEMENTS }
    {
        self.statements.len() as u32
    }

    /// The place, card and macro of each statement.
    pub(crate) fn entries(&self) -> &[(u64, u32, Macro)]
        ensures { map entry_of result.now ≡ self.now.statements }
    {
        &self.statements
    }

    /// The code words.
    pub fn words(&self) -> &[u32]
        ensures value { result.now ≡ self.now.words }
        ensures some { 1 ≤ length result.now }
        ensures most { length result.now ≤ MAX_WORDS }
    {
        &self.words
    }

    /// The constants.
    pub fn constants(&self) -> &[u8]
        ensures value { result.now ≡ self.now.constants }
        ensures most { length result.now ≤ MAX_CONSTANT_BYTES }
    {
        &self.constants
    }

    /// The bytes of the static cells.
    pub fn cells(&self) -> &[u8]
        ensures value { result.now ≡ self.now.cells }
        ensures size { length result.now ≡ length self.now.kinds * self.now.settings.sizes.descr }
        ensures most { length result.now ≤ 64 * MAX_CELLS }
    {
        &self.cells
    }

    /// The kinds of the static cells: 0 for a descriptor, 1 for characters.
    pub fn kinds(&self) -> &[u8]
        ensures value { result.now ≡ self.now.kinds }
        ensures most { length result.now ≤ MAX_CELLS }
    {
        &self.kinds
    }

    /// The bytes of the tables.
    pub fn tables(&self) -> &[u8]
        ensures value { result.now ≡ self.now.tables }
        ensures most { length result.now ≤ MAX_TABLES * TABLE_BYTES }
    {
        &self.tables
    }

    /// DESCR, AOFF, FOFF, FLEN, VOFF, VLEN, FNC, MARK, PTR, STTL, TTL, STSIZE, DYNSIZ and OBSIZ.
    pub fn parameters(&self) -> [u64; 14]
        ensures { result ≡ settings_numbers self.now.settings }
    {
        self.settings.to_numbers()
    }

    /// The date, as MM/DD/YY.
    pub fn date(&self) -> [u8; 8]
        ensures { result ≡ self.now.settings.date }
    {
        self.settings.date()
    }

    /// The layout of a descriptor.
    pub fn numbers(&self) -> &Numbers
        ensures sizes { ⟦<Numbers as Layout>⟧.sizes result.now ≡ self.now.settings.sizes }
        ensures legal { IsImage self.now }
    {
        self.settings.numbers()
    }

    /// The number of all cells: the static ones, and those after them.
    pub fn cell_total(&self) -> u64
        ensures value { result ≡ all_cells self.now.settings (length self.now.kinds) }
        ensures most { result ≤ MAX_CELLS }
    {
        self.settings.all_cells(self.kinds.len())
    }
}

fn nth(statements: &[(u64, u32, Macro)], k: u32) -> Option<(u64, u32, Macro)>
    ensures { result ≡ slice_get statements.now k }
{
    statements.get(k as usize).copied()
}

/// Whether these parts are an image's.
fn is_image(
    settings: &Settings,
    statements: &[(u64, u32, Macro)],
    words: &[u32],
    constants: &[u8],
    cells: &[u8],
    kinds: &[u8],
    tables: &[u8],
) -> bool
    requires { AreLegalSettings settings.now }
    ensures { let i = image_of settings.now statements.now words.now constants.now cells.now kinds.now tables.now
        in IsTrue result ↔ IsImage i }
{
    if !has_room(
        settings,
        statements.len(),
        words.len(),
        constants.len(),
        kinds.len(),
        tables.len(),
    ) {
        return false;
    }
    if !has_cells(settings, cells.len(), kinds.len()) {
        return false;
    }
    if !places_rise(statements, words.len()) {
        return false;
    }
    are_kinds(kinds) && are_tables(tables)
}
