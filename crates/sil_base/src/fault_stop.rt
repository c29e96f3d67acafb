// Why a source is refused.
ghost use Rattle.std.specs.Prelude.{◌≡◌};

use crate::items::Items;
use crate::line::Fault;
use std::alloc::{AllocError, AllocFailed};

/// Why a source is refused: the lines that break a rule, in order; or want of memory.
#[derive(Debug, Drop)]
pub enum FaultStop {
    Faults(Items<Fault>),
    Memory,
}

impl From<AllocError> for FaultStop {
    ghost use Rattle.sil_base.specs.declared.fault_stop.FaultStop.TheVariants.{Memory};

    ghost from_gives = { λ _ e. e ≡ Memory };

    fn from(_error: AllocError) -> FaultStop {
        FaultStop::Memory
    }
}

impl<T: Drop> From<AllocFailed<T>> for FaultStop {
    ghost use Rattle.sil_base.specs.declared.fault_stop.FaultStop.TheVariants.{Memory};

    ghost from_gives = { λ _ e. e ≡ Memory };

    fn from(_error: AllocFailed<T>) -> FaultStop {
        FaultStop::Memory
    }
}
