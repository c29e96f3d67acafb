// Why no program was made.
ghost use Rattle.std.specs.Prelude.{◌≡◌};

use sil_base::{Fault, FaultStop, Items};
use std::alloc::{AllocError, AllocFailed};

/// Why no program was made.
#[derive(Debug, Drop)]
pub enum ProgramStop {
    /// The lines that break a rule, in order.
    Faults(Items<Fault>),
    /// The source has no program so far.
    NotBuilt,
    /// Memory ran out.
    Memory,
}

impl From<AllocError> for ProgramStop {
    ghost use Rattle.sil_arguments.specs.declared.stop.ProgramStop.TheVariants.{Memory};

    ghost from_gives = { λ _ e. e ≡ Memory };

    fn from(_error: AllocError) -> ProgramStop {
        ProgramStop::Memory
    }
}

impl<T: Drop> From<AllocFailed<T>> for ProgramStop {
    ghost use Rattle.sil_arguments.specs.declared.stop.ProgramStop.TheVariants.{Memory};

    ghost from_gives = { λ _ e. e ≡ Memory };

    fn from(_error: AllocFailed<T>) -> ProgramStop {
        ProgramStop::Memory
    }
}

impl From<FaultStop> for ProgramStop {
    ghost use Rattle.sil_arguments.specs.ProgramStops.{stop_below};

    ghost from_gives = { λ stop e. e ≡ stop_below stop };

    fn from(stop: FaultStop) -> ProgramStop {
        match stop {
            FaultStop::Faults(faults) => ProgramStop::Faults(faults),
            FaultStop::Memory => ProgramStop::Memory,
        }
    }
}
