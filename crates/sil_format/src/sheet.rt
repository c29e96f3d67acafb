// Records in the making.
ghost use Rattle.std.specs.Prelude.{◌≡◌, ◌++◌, ◌+◌, [], ◌∷◌, length, nat_le, IfOk, OnOk, if◌then◌else◌};
ghost use Rattle.sil_format.specs.Layout.{all_records};
ghost use Rattle.sil_format.specs.declared.value.Laid.TheVariants.{Records};

use crate::value::Laid;
use sil_base::{Items, Record};
use std::alloc::{AllocError, AllocFailed, Global};

/// The most bytes of a record.
const LIMIT: usize = 4096;

/// The records that were ended, and the one that isn't yet.
#[derive(Debug, Drop)]
pub(crate) struct Sheet {
    ended: Vec<Record>,
    last: Vec<u8>,
}

impl Sheet {
    /// No record that was ended, and one without bytes.
    pub(crate) fn new(alloc: Global) -> Sheet
        ensures ended { result.ended.items ≡ [] }
        ensures last { result.last.items ≡ [] }
    {
        Sheet {
            ended: Vec::new(alloc),
            last: Vec::new(alloc),
        }
    }

    /// Appends bytes to the record, if it keeps to the limit with them; whether it does.
    pub(crate) fn put(&mut self, bytes: &[u8]) -> Result<bool, AllocError>
        ensures fits { IfOk result (λ fits.
            fits ≡ nat_le (length self.old.last.items + length bytes.now) 4096) }
        ensures last { IfOk result (λ fits.
            self.new.last.items
            ≡ (if fits then self.old.last.items ++ bytes.now else self.old.last.items)) }
        ensures ended { self.new.ended.items ≡ self.old.ended.items }
    {
        let fits = bytes.len() <= LIMIT && self.last.len() <= LIMIT - bytes.len();
        if fits {
            self.last.extend_from_slice(bytes)?;
        }
        Ok(fits)
    }

    /// Ends the record, and starts an empty one.
    pub(crate) fn end_record(&mut self, alloc: Global) -> Result<(), AllocError>
        ensures ended { OnOk result (self.new.ended.items ≡ all_records self.old) }
        ensures last { OnOk result (self.new.last.items ≡ []) }
    {
        self.ended.push(Record::of(alloc, self.last.as_slice())?)?;
        self.last.clear();
        Ok(())
    }

    /// All records, the last one too.
    pub(crate) fn finish(mut self, alloc: Global) -> Result<Laid, AllocError>
        ensures { IfOk result (λ laid. laid ≡ Records (all_records self)) }
    {
        self.end_record(alloc)?;
        let Sheet { ended, last: _ } = self;
        Ok(Laid::Records(Items::of(ended)))
    }
}

/// Why laying out stops: no value is left for a data item, a value meets Real or Unfit, or want of
/// memory.
#[derive(Debug, Clone, Copy, PartialEq, Eq)]
pub(crate) enum Stop {
    NoValue,
    Real,
    Unfit,
    Memory,
}

impl From<AllocError> for Stop {
    ghost use Rattle.std.specs.Prelude.{◌≡◌};
    ghost use Rattle.sil_format.specs.declared.sheet.Stop.TheVariants.{Memory};

    ghost from_gives = { λ _ stop. stop ≡ Memory };

    fn from(_: AllocError) -> Stop {
        Stop::Memory
    }
}

impl<T: Drop> From<AllocFailed<T>> for Stop {
    ghost use Rattle.std.specs.Prelude.{◌≡◌};
    ghost use Rattle.sil_format.specs.declared.sheet.Stop.TheVariants.{Memory};

    ghost from_gives = { λ _ stop. stop ≡ Memory };

    fn from(_: AllocFailed<T>) -> Stop {
        Stop::Memory
    }
}
