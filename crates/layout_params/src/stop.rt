// Why parameters aren't read.
ghost use Rattle.std.specs.Prelude.{◌≡◌};

use sil_base::Fault;
use std::alloc::{AllocError, AllocFailed};

/// Why a parameter file isn't read: the first line that breaks its least broken rule, or want of
/// memory.
#[derive(Debug, Drop)]
pub enum ParamStop {
    Fault(Fault),
    Memory,
}

impl From<AllocError> for ParamStop {
    ghost use Rattle.layout_params.specs.declared.stop.ParamStop.TheVariants.{Memory};

    ghost from_gives = { λ _ e. e ≡ Memory };

    fn from(_error: AllocError) -> ParamStop {
        ParamStop::Memory
    }
}

impl<T: Drop> From<AllocFailed<T>> for ParamStop {
    ghost use Rattle.layout_params.specs.declared.stop.ParamStop.TheVariants.{Memory};

    ghost from_gives = { λ _ e. e ≡ Memory };

    fn from(_error: AllocFailed<T>) -> ParamStop {
        ParamStop::Memory
    }
}
