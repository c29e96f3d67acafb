// Whole files of a store.
ghost use Rattle.std.specs.Prelude.{◌≡◌, ◌≤◌, false, IfSome, IfOk, IfErr, MatchResult, Ok, Err, length};
ghost use Rattle.sil_base.specs.Loads.{loaded, is_free, LoadCause, NamesFile};

use crate::record::Record;
use crate::store::{Load, Store};
use std::alloc::{AllocError, Global};

/// Why a file isn't loaded: there is none of this name, it is longer than the limit, or the store
/// failed at it; or want of memory.
#[derive(Debug, Drop)]
pub enum LoadStop {
    Missing(Record),
    TooLong(Record),
    Failed(Record),
    Memory,
}

impl From<AllocError> for LoadStop {
    ghost use Rattle.std.specs.Prelude.{◌≡◌};
    ghost use Rattle.sil_base.specs.declared.loading.LoadStop.TheVariants as stop;

    ghost from_gives = { λ _ e. e ≡ stop.Memory };

    fn from(_: AllocError) -> LoadStop {
        LoadStop::Memory
    }
}

/// The bytes of a file of at most `limit` bytes.
pub fn load_file<S: Store>(
    alloc: Global,
    store: &mut S,
    name: &str,
    limit: u64,
) -> Result<Vec<u8>, LoadStop>
    ensures loaded { IfSome (S.files store.old) (λ files. MatchResult result
        (λ bytes. loaded files name.now limit ≡ Ok bytes.items)
        (λ e. is_free e ≡ false → loaded files name.now limit ≡ Err e)) }
    ensures within { IfOk result (λ bytes. length bytes.items ≤ limit) }
    ensures named { IfErr result (NamesFile name.now) }
    ensures kept { S.files store.new ≡ S.files store.old }
    ensures count { S.faults store.old ≤ S.faults store.new }
    ensures cause { IfErr result (λ e. LoadCause e (S.faults store.old) (S.faults store.new)) }
{
    let mut bytes = Vec::new(alloc);
    match store.load(name, limit, &mut bytes) {
        Load::Ok => Ok(bytes),
        Load::Missing => Err(LoadStop::Missing(Record::of(alloc, name.as_bytes())?)),
        Load::TooLong => Err(LoadStop::TooLong(Record::of(alloc, name.as_bytes())?)),
        Load::Failed => Err(LoadStop::Failed(Record::of(alloc, name.as_bytes())?)),
        Load::Memory => Err(LoadStop::Memory),
    }
}
