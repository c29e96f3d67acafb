// How a command ends.
ghost use Rattle.std.specs.Prelude.{◌≡◌};
ghost use Rattle.command_report.specs.Endings.{status_of, stop_status, run_status, finish_status};

use image_file::ImageStop;
use rv_emulate::CpuEnd;
use sil_base::{Fault, Items, LoadStop, Record};
use sil_check::CheckStop;
use std::alloc::AllocError;

/// What stops a command before it has done its work: a file that isn't there, is too long, or that
/// the store fails to load or save; parameters that aren't legal; lines of the source that break
/// rules; files in a form that isn't built yet; an image file that is refused, with the number of
/// the part that is wrong; or want of memory.
#[derive(Debug, Drop)]
pub enum Stop {
    Missing(Record),
    TooLong(Record),
    StoreFault(Record),
    Parameters(Fault),
    Faults(Items<Fault>),
    NotBuilt,
    ImageRefused(u8),
    Memory,
}

/// How a command ends: its words are refused; it is stopped; it has checked a source of so many
/// statements and cells in all; it has installed an image of so many bytes; it has listed an image;
/// or its run ends.
#[derive(Debug, Drop)]
pub enum Ending {
    Words,
    Stopped(Stop),
    Checked { statements: u64, cells: u64 },
    Installed { bytes: u64 },
    Listed,
    Ran(CpuEnd),
}

/// The status of a run that ends so.
fn run_status(end: CpuEnd) -> u8
    ensures { result ≡ run_status end }
{
    match end {
        CpuEnd::Exit(0) => 0,
        CpuEnd::Exit(_) => 1,
        CpuEnd::Trap(_) => 6,
        CpuEnd::Undefined(_) => 7,
        CpuEnd::Budget => 8,
        CpuEnd::UnitFault(_, _) => 11,
        CpuEnd::Illegal(_)
        | CpuEnd::Fetch(_)
        | CpuEnd::Load(_)
        | CpuEnd::Store(_)
        | CpuEnd::BadCall(_)
        | CpuEnd::Runaway => 9,
        CpuEnd::Memory => 12,
    }
}

impl Stop {
    /// The status of a command that is stopped so.
    fn status(&self) -> u8
        ensures { result ≡ stop_status self.now }
    {
        match self {
            Stop::Missing(_) => 13,
            Stop::TooLong(_) => 15,
            Stop::StoreFault(_) => 10,
            Stop::Parameters(_) => 4,
            Stop::Faults(_) => 3,
            Stop::NotBuilt => 16,
            Stop::ImageRefused(_) => 5,
            Stop::Memory => 12,
        }
    }
}

impl Ending {
    /// The status of a command that ends so, before its finishes and notes.
    pub fn status(&self) -> u8
        ensures { result ≡ status_of self.now }
    {
        match self {
            Ending::Words => 2,
            Ending::Stopped(stop) => stop.status(),
            Ending::Checked { .. } | Ending::Installed { .. } | Ending::Listed => 0,
            Ending::Ran(end) => run_status(*end),
        }
    }
}

/// A status after finishes, of which so many failed.
pub fn after_finishes(code: u8, failed: u32) -> u8
    ensures { result ≡ finish_status code failed }
{
    if failed != 0 && code < 10 { 11 } else { code }
}

impl From<AllocError> for Stop {
    ghost use Rattle.std.specs.Prelude.{◌≡◌};
    ghost use Rattle.command_report.specs.declared.ending.Stop.TheVariants as stop;

    ghost from_gives = { λ _ e. e ≡ stop.Memory };

    fn from(_: AllocError) -> Stop {
        Stop::Memory
    }
}

impl From<CheckStop> for Stop {
    ghost use Rattle.std.specs.Prelude.{◌≡◌};
    ghost use Rattle.command_report.specs.Endings.{stop_by};

    ghost from_gives = { λ c e. e ≡ stop_by c };

    fn from(stop: CheckStop) -> Stop {
        match stop {
            CheckStop::Missing(name) => Stop::Missing(name),
            CheckStop::TooLong(name) => Stop::TooLong(name),
            CheckStop::Failed(name) => Stop::StoreFault(name),
            CheckStop::Params(fault) => Stop::Parameters(fault),
            CheckStop::Faults(faults) => Stop::Faults(faults),
            CheckStop::NotBuilt => Stop::NotBuilt,
            CheckStop::Memory => Stop::Memory,
        }
    }
}

impl From<ImageStop> for Stop {
    ghost use Rattle.std.specs.Prelude.{◌≡◌};
    ghost use Rattle.command_report.specs.Endings.{refused_by};

    ghost from_gives = { λ c e. e ≡ refused_by c };

    fn from(stop: ImageStop) -> Stop {
        match stop {
            ImageStop::Part(part) => Stop::ImageRefused(part),
            ImageStop::Memory => Stop::Memory,
        }
    }
}

impl From<LoadStop> for Stop {
    ghost use Rattle.std.specs.Prelude.{◌≡◌};
    ghost use Rattle.command_report.specs.Endings.{unloaded_by};

    ghost from_gives = { λ c e. e ≡ unloaded_by c };

    fn from(stop: LoadStop) -> Stop {
        match stop {
            LoadStop::Missing(name) => Stop::Missing(name),
            LoadStop::TooLong(name) => Stop::TooLong(name),
            LoadStop::Failed(name) => Stop::StoreFault(name),
            LoadStop::Memory => Stop::Memory,
        }
    }
}

impl From<Result<Ending, Stop>> for Ending {
    ghost use Rattle.std.specs.Prelude.{◌≡◌};
    ghost use Rattle.command_report.specs.Endings.{ending_of};

    ghost from_gives = { λ r e. e ≡ ending_of r };

    fn from(came: Result<Ending, Stop>) -> Ending {
        match came {
            Ok(end) => end,
            Err(stop) => Ending::Stopped(stop),
        }
    }
}
