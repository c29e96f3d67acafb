// Why no cards are read.
ghost use Rattle.std.specs.Prelude.{◌≡◌};

use sil_base::{Fault, Items, LoadStop, Record};
use std::alloc::{AllocError, AllocFailed};

/// Why no cards are read.
#[derive(Debug, Drop)]
pub enum CardStop {
    /// The lines that break a rule, in order.
    Faults(Items<Fault>),
    /// No file has this name.
    Missing(Record),
    /// The file of this name is longer than a file may be.
    TooLong(Record),
    /// The store failed at the file of this name.
    Failed(Record),
    /// Memory ran out.
    Memory,
}

impl From<AllocError> for CardStop {
    ghost use Rattle.sil_cards.specs.declared.stop.CardStop.TheVariants.{Memory};

    ghost from_gives = { λ _ e. e ≡ Memory };

    fn from(_error: AllocError) -> CardStop {
        CardStop::Memory
    }
}

impl<T: Drop> From<AllocFailed<T>> for CardStop {
    ghost use Rattle.sil_cards.specs.declared.stop.CardStop.TheVariants.{Memory};

    ghost from_gives = { λ _ e. e ≡ Memory };

    fn from(_error: AllocFailed<T>) -> CardStop {
        CardStop::Memory
    }
}

impl From<LoadStop> for CardStop {
    ghost use Rattle.sil_cards.specs.Reads.{card_stop};

    ghost from_gives = { λ stop e. e ≡ card_stop stop };

    fn from(stop: LoadStop) -> CardStop {
        match stop {
            LoadStop::Missing(name) => CardStop::Missing(name),
            LoadStop::TooLong(name) => CardStop::TooLong(name),
            LoadStop::Failed(name) => CardStop::Failed(name),
            LoadStop::Memory => CardStop::Memory,
        }
    }
}
