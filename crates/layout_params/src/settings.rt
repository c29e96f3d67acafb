// The parameters that an image keeps.
ghost use Rattle.std.specs.Prelude.{◌≡◌, ◌≤◌, ◌<◌, ◌^◌, [], ◌∷◌, MatchOption, IfSome};
ghost use Rattle.layout_params.specs.Areas as areas;
ghost use Rattle.layout_params.specs.HeldEntries.{drafted};
ghost use Rattle.layout_params.specs.Parameters as parameters;
ghost use Rattle.layout_params.specs.Parameters.{AreLegalSettings, settings_numbers};

use crate::draft::Draft;
use crate::faults::value_fault;
use crate::layout::Layout;
use crate::numbers::Numbers;
use crate::ordered::{draft_of_numbers, numbers_of};
use sil_base::{FIRST_CELL, MAX_CELLS};
use std::marker::Model;

/// The layout, the five flags, the cells of the stack and of dynamic storage, the buckets and the
/// date. They are legal.
#[derive(Debug, Drop)]
pub struct Settings {
    pub(crate) numbers: Numbers,
    pub(crate) function_flag: u64,
    pub(crate) mark_flag: u64,
    pub(crate) pointer_flag: u64,
    pub(crate) string_title_flag: u64,
    pub(crate) title_flag: u64,
    pub(crate) stack_size: u64,
    pub(crate) dynamic_size: u64,
    pub(crate) bucket_count: u64,
    pub(crate) date: [u8; 8],
}

impl Model for Settings {
    ghost use Rattle.layout_params.specs.Parameters as parameters;

    ghost Value = { parameters.Settings };

    ghost use Rattle.layout_params.specs.SettingsView.{settings_of};

    ghost view = { settings_of };

    ghost invariant = { λ s. parameters.AreLegalSettings (settings_of s) };
}

impl Settings {
    /// The settings of DESCR, AOFF, FOFF, FLEN, VOFF, VLEN, FNC, MARK, PTR, STTL, TTL, STSIZE,
    /// DYNSIZ and OBSIZ, and of a date, where they are legal.
    pub fn new(numbers: [u64; 14], date: [u8; 8]) -> Option<Settings>
        ensures settings { (s : parameters.Settings) → numbers ≡ settings_numbers s → date ≡ s.date
            → MatchOption result (¬ AreLegalSettings s) (λ r. r ≡ s) }
        ensures legal { IfSome result AreLegalSettings }
    {
        let draft = draft_of_numbers(&numbers, &date);
        match value_fault(&[], &draft) {
            Some(_) => None,
            None => Some(Settings::of_draft(&draft)),
        }
    }

    /// The settings of a draft.
    pub(crate) fn of_draft(draft: &Draft<'_>) -> Settings
        requires { AreLegalSettings (drafted draft.now).settings }
        ensures value { result ≡ (drafted draft.now).settings }
        ensures legal { AreLegalSettings result }
    {
        let mut date = [0; 8];
        date.copy_from_slice(draft.date);
        Settings {
            numbers: Numbers::of(&draft.sizes),
            function_flag: draft.function_flag,
            mark_flag: draft.mark_flag,
            pointer_flag: draft.pointer_flag,
            string_title_flag: draft.string_title_flag,
            title_flag: draft.title_flag,
            stack_size: draft.stack_size,
            dynamic_size: draft.dynamic_size,
            bucket_count: draft.bucket_count,
            date,
        }
    }

    /// The same settings.
    pub fn copied(&self) -> Settings
        ensures value { result ≡ self.now }
        ensures legal { AreLegalSettings result }
    {
        Settings {
            numbers: self.numbers,
            function_flag: self.function_flag,
            mark_flag: self.mark_flag,
            pointer_flag: self.pointer_flag,
            string_title_flag: self.string_title_flag,
            title_flag: self.title_flag,
            stack_size: self.stack_size,
            dynamic_size: self.dynamic_size,
            bucket_count: self.bucket_count,
            date: self.date,
        }
    }

    /// DESCR, AOFF, FOFF, FLEN, VOFF, VLEN, FNC, MARK, PTR, STTL, TTL, STSIZE, DYNSIZ and OBSIZ.
    pub fn to_numbers(&self) -> [u64; 14]
        ensures { result ≡ settings_numbers self.now }
    {
        numbers_of(self)
    }

    /// The layout of a descriptor.
    pub fn numbers(&self) -> &Numbers
        ensures sizes { ⟦<Numbers as Layout>⟧.sizes result.now ≡ self.now.sizes }
        ensures legal { AreLegalSettings self.now }
        ensures descr { (16 ≤ self.now.sizes.descr) × (self.now.sizes.descr ≤ 64) }
    {
        &self.numbers
    }

    /// The flags FNC, MARK, PTR, STTL and TTL.
    pub fn flags(&self) -> [u64; 5]
        ensures { let s = self.now
            in result ≡ s.function_flag ∷ s.mark_flag ∷ s.pointer_flag ∷ s.string_title_flag ∷ s.title_flag ∷ [] }
    {
        [
            self.function_flag,
            self.mark_flag,
            self.pointer_flag,
            self.string_title_flag,
            self.title_flag,
        ]
    }

    /// The cells of the stack.
    pub fn stack_size(&self) -> u64
        ensures value { result ≡ self.now.stack_size }
        ensures range { (16 ≤ result) × (result ≤ 65536) }
    {
        self.stack_size
    }

    /// The cells of dynamic storage.
    pub fn dynamic_size(&self) -> u64
        ensures value { result ≡ self.now.dynamic_size }
        ensures range { result ≤ 900000 }
    {
        self.dynamic_size
    }

    /// The buckets of the symbol table.
    pub fn bucket_count(&self) -> u64
        ensures value { result ≡ self.now.bucket_count }
        ensures range { (1 ≤ result) × (result ≤ 4096) }
    {
        self.bucket_count
    }

    /// The date, as MM/DD/YY.
    pub fn date(&self) -> [u8; 8]
        ensures { result ≡ self.now.date }
    {
        self.date
    }

    /// The cells of the hidden buffer.
    fn hidden_cells(&self) -> u64
        ensures value { result ≡ areas.hidden_cells self.now }
        ensures few { result ≤ 2 }
    {
        let size = self.numbers().descr();
        (20 + size - 1) / size
    }

    /// The cells after the static ones: the hidden buffer, the dynamic storage and the stack.
    pub fn blank_cells(&self) -> u64
        ensures value { result ≡ areas.blank_cells self.now }
        ensures few { result ≤ MAX_CELLS }
    {
        self.hidden_cells() + self.dynamic_size() + self.stack_size()
    }

    /// The number of all cells, by the number of the static ones.
    pub fn all_cells(&self, statics: usize) -> u64
        requires { statics < 2 ^ 63 }
        ensures { result ≡ areas.all_cells self.now statics }
    {
        statics as u64 + self.blank_cells()
    }

    /// The address of the cell before the stack, by the number of the static cells.
    pub fn empty_stack(&self, statics: usize) -> i64
        requires { areas.all_cells self.now statics ≤ MAX_CELLS }
        ensures { result ≡ areas.empty_stack self.now statics }
    {
        let size = self.numbers().descr();
        let below = statics as u64 + self.hidden_cells() + self.dynamic_size();
        (FIRST_CELL + below * size - size) as i64
    }
}
