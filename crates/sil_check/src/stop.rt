// Why files give no program.
ghost use Rattle.std.specs.Prelude.{◌≡◌};

use layout_params::ParamStop;
use sil_arguments::ProgramStop;
use sil_base::{Fault, Items, LoadStop, Record};
use std::alloc::AllocError;

/// Why files give no program.
#[derive(Debug, Drop)]
pub enum CheckStop {
    /// No file has this name.
    Missing(Record),
    /// The file of this name is longer than a file may be.
    TooLong(Record),
    /// The store failed at the file of this name.
    Failed(Record),
    /// The parameters aren't legal.
    Params(Fault),
    /// The lines of the source and of the tables that break a rule, in order.
    Faults(Items<Fault>),
    /// The source has no program so far.
    NotBuilt,
    /// Memory ran out.
    Memory,
}

impl From<AllocError> for CheckStop {
    ghost use Rattle.std.specs.Prelude.{◌≡◌};
    ghost use Rattle.sil_check.specs.declared.stop.CheckStop.TheVariants as stop;

    ghost from_gives = { λ _ e. e ≡ stop.Memory };

    fn from(_: AllocError) -> CheckStop {
        CheckStop::Memory
    }
}

impl From<LoadStop> for CheckStop {
    ghost use Rattle.std.specs.Prelude.{◌≡◌};
    ghost use Rattle.sil_check.specs.CheckStops.{stop_by_load};

    ghost from_gives = { λ c e. e ≡ stop_by_load c };

    fn from(stop: LoadStop) -> CheckStop {
        match stop {
            LoadStop::Missing(name) => CheckStop::Missing(name),
            LoadStop::TooLong(name) => CheckStop::TooLong(name),
            LoadStop::Failed(name) => CheckStop::Failed(name),
            LoadStop::Memory => CheckStop::Memory,
        }
    }
}

impl From<ParamStop> for CheckStop {
    ghost use Rattle.std.specs.Prelude.{◌≡◌};
    ghost use Rattle.sil_check.specs.CheckStops.{stop_by_params};

    ghost from_gives = { λ c e. e ≡ stop_by_params c };

    fn from(stop: ParamStop) -> CheckStop {
        match stop {
            ParamStop::Fault(fault) => CheckStop::Params(fault),
            ParamStop::Memory => CheckStop::Memory,
        }
    }
}

impl From<ProgramStop> for CheckStop {
    ghost use Rattle.std.specs.Prelude.{◌≡◌};
    ghost use Rattle.sil_check.specs.CheckStops.{stop_by_program};

    ghost from_gives = { λ c e. e ≡ stop_by_program c };

    fn from(stop: ProgramStop) -> CheckStop {
        match stop {
            ProgramStop::Faults(faults) => CheckStop::Faults(faults),
            ProgramStop::NotBuilt => CheckStop::NotBuilt,
            ProgramStop::Memory => CheckStop::Memory,
        }
    }
}
