// How many there are of each part.
ghost use Rattle.std.specs.Prelude.{◌≡◌, ◌*◌, ◌↔◌, IsTrue};
ghost use Rattle.image_file.specs.Spelling.{counts_list};
ghost use Rattle.image_file.specs.ImageGrammar.{AreWithin};

use crate::rules::has_room;
use layout_params::Settings;
use sil_base::TABLE_BYTES;

/// The numbers of statements, code words, constant bytes, static cells and tables.
#[derive(Clone, Copy)]
pub(crate) struct Counts {
    pub(crate) statements: u32,
    pub(crate) words: u32,
    pub(crate) constants: u32,
    pub(crate) cells: u32,
    pub(crate) tables: u32,
}

impl Counts {
    /// The counts of these numbers.
    pub(crate) fn of(numbers: [u32; 5]) -> Counts
        ensures { counts_list result ≡ numbers }
    {
        let [statements, words, constants, cells, tables] = numbers;
        Counts {
            statements,
            words,
            constants,
            cells,
            tables,
        }
    }

    /// The numbers, in the order of the file.
    pub(crate) fn numbers(&self) -> [u32; 5]
        ensures { result ≡ counts_list self.now }
    {
        [
            self.statements,
            self.words,
            self.constants,
            self.cells,
            self.tables,
        ]
    }

    /// Whether they keep to the limits.
    pub(crate) fn are_within(&self, settings: &Settings) -> bool
        ensures { IsTrue result ↔ AreWithin settings.now self.now }
    {
        has_room(
            settings,
            self.statements as usize,
            self.words as usize,
            self.constants as usize,
            self.cells as usize,
            TABLE_BYTES * self.tables as usize,
        )
    }

    /// The bytes of the tables.
    pub(crate) fn table_bytes(&self) -> usize
        ensures { result ≡ self.now.tables * TABLE_BYTES }
    {
        self.tables as usize * TABLE_BYTES
    }
}
