// Formats, and why bytes are none.
ghost use Rattle.std.specs.Prelude.{◌≡◌};

use sil_base::Record;
use std::alloc::{AllocError, AllocFailed};
use std::marker::Model;
use thiserror::Error;

/// What a data item writes: a number in so many places, a character, or a number with decimals.
#[derive(Debug, Clone, Copy, PartialEq, Eq)]
pub enum DataKind {
    Integer { width: u16 },
    Character,
    Real { width: u16, decimals: u16 },
}

/// An item: so many blanks, a text, the end of the record, or a data item so many times.
#[derive(Debug, Drop)]
pub enum Item {
    Blanks(u16),
    Text(Record),
    NewRecord,
    Data { count: u16, kind: DataKind },
}

/// A format, which contracts see as the list of its items.
#[derive(Debug, Drop)]
pub struct Format {
    items: Vec<Item>,
}

impl Model for Format {
    ghost use Rattle.std.specs.Prelude.{List};
    ghost use Rattle.sil_format.specs.declared.format.Item.{Item};

    ghost Value = { List Item };

    ghost view = { λ f. f.items.items };
}

impl Format {
    /// The format of these items.
    pub(crate) fn of(items: Vec<Item>) -> Format
        ensures { result ≡ items.items }
    {
        Format { items }
    }

    /// The items, in order.
    pub fn items(&self) -> &[Item]
        ensures { result.now ≡ self.now }
    {
        self.items.as_slice()
    }
}

/// Why bytes are read as no format: they are none, or want of memory.
#[derive(Clone, Copy, PartialEq, Eq, Debug, Error)]
pub enum FormatStop {
    #[error("not a format")]
    Bad,
    #[error("out of memory")]
    Memory,
}

impl From<AllocError> for FormatStop {
    ghost use Rattle.std.specs.Prelude.{◌≡◌};
    ghost use Rattle.sil_format.specs.declared.format.FormatStop.TheVariants.{Memory};

    ghost from_gives = { λ _ stop. stop ≡ Memory };

    fn from(_: AllocError) -> FormatStop {
        FormatStop::Memory
    }
}

impl<T: Drop> From<AllocFailed<T>> for FormatStop {
    ghost use Rattle.std.specs.Prelude.{◌≡◌};
    ghost use Rattle.sil_format.specs.declared.format.FormatStop.TheVariants.{Memory};

    ghost from_gives = { λ _ stop. stop ≡ Memory };

    fn from(_: AllocFailed<T>) -> FormatStop {
        FormatStop::Memory
    }
}
