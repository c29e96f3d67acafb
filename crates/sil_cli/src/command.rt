// The commands that take a source.
ghost use Rattle.std.specs.Prelude.{◌≡◌, ◌≤◌, Some, Err, false, [], IfSome, IfOk, IfErr, MatchResult, IsOkAnd};
ghost use Rattle.std.specs.FinMap.{insert};
ghost use Rattle.command_report.specs.Endings.{is_free, ending_of};
ghost use Rattle.command_words.specs.CommandOrders.{checks, installs, simulates, goes};
ghost use Rattle.command_words.specs.HeldCommands.{names_by};
ghost use Rattle.rv_operations.specs.Does.{as_end};
ghost use Rattle.sil_check.specs.CheckedPrograms.{Job};
ghost use Rattle.sil_install.specs.Installed.{IsInstalled};
ghost use Rattle.unit_io.specs.Units.{AllUnits};
ghost use Rattle.sil_cli.specs.Answer.{Performs};
ghost use Rattle.sil_cli.specs.CommandFiles.{StopCause, job_at};
ghost use Rattle.sil_cli.specs.Report.{KeepsOthers};

use crate::files::{image_bytes, program, save};
use command_report::{Ending, Stop};
use command_words::{SourceFiles, Steps};
use image_runs::run_image;
use rv_emulate::CpuEnd;
use sil_base::Store;
use sil_install::install;
use sil_machine::{End, sim};
use std::alloc::Global;
use unit_io::UnitSet;

/// The bytes of an image of the program that files give.
pub fn prepare<S: Store>(
    alloc: Global,
    names: &SourceFiles<'_>,
    store: &mut S,
) -> Result<Vec<u8>, Stop>
    ensures told { IfSome (S.files store.old) (λ files. MatchResult result
        (λ image. IsOkAnd (job_at (names_by names.now) files)
        (λ job. IsInstalled image.items job.program job.parameters))
        (λ e. is_free e ≡ false → job_at (names_by names.now) files ≡ Err e)) }
    ensures installed { IfOk result (λ image. (job : Job)
        × IsInstalled image.items job.program job.parameters) }
    ensures kept { S.files store.new ≡ S.files store.old }
    ensures count { S.faults store.old ≤ S.faults store.new }
    ensures cause { IfErr result
        (λ e. StopCause ⊥ e (S.faults store.old) (S.faults store.new)) }
{
    let checked = program(alloc, names, store)?;
    Ok(install(alloc, &checked)?)
}

/// Installs the program that files give, and saves its image.
fn install_and_save<S: Store>(
    alloc: Global,
    names: &SourceFiles<'_>,
    image_name: &str,
    store: &mut S,
) -> Result<Vec<u8>, Stop>
    ensures told { IfSome (S.files store.old) (λ files. MatchResult result
        (λ image. IsOkAnd (job_at (names_by names.now) files)
        (λ job. IsInstalled image.items job.program job.parameters)
        × (S.files store.new ≡ Some (insert files image_name.now image.items)))
        (λ e. is_free e ≡ false → (job_at (names_by names.now) files ≡ Err e)
        × (S.files store.new ≡ Some files))) }
    ensures installed { IfOk result (λ image. (job : Job)
        × IsInstalled image.items job.program job.parameters) }
    ensures leaves { IfSome (S.files store.old)
        (λ files. KeepsOthers (names_by names.now) image_name.now files (S.files store.new)) }
    ensures count { S.faults store.old ≤ S.faults store.new }
    ensures cause { IfErr result
        (λ e. StopCause ⊥ e (S.faults store.old) (S.faults store.new)) }
{
    let image = prepare(alloc, names, store)?;
    save(alloc, store, image_name, &image)?;
    Ok(image)
}

/// `check SRC TABLES PARAMS`.
pub fn check_source<S: Store>(
    alloc: Global,
    names: &SourceFiles<'_>,
    store: &mut S,
) -> Result<Ending, Stop>
    ensures { (units : AllUnits) → Performs (Some (checks (names_by names.now))) (ending_of result) []
        (S.files store.old) (S.files store.new) (S.faults store.old) (S.faults store.new)
        units units }
{
    let checked = program(alloc, names, store)?;
    let statements = checked.program.statements.items().len();
    let statics = checked.program.cells.items().len();
    Ok(Ending::Checked {
        statements: statements as u64,
        cells: checked.params.settings().all_cells(statics),
    })
}

/// `install SRC TABLES PARAMS IMAGE`.
pub fn install_source<S: Store>(
    alloc: Global,
    names: &SourceFiles<'_>,
    image_name: &str,
    store: &mut S,
) -> Result<Ending, Stop>
    ensures { (units : AllUnits) → Performs (Some (installs (names_by names.now) image_name.now))
        (ending_of result) [] (S.files store.old) (S.files store.new)
        (S.faults store.old) (S.faults store.new) units units }
{
    let image = install_and_save(alloc, names, image_name, store)?;
    Ok(Ending::Installed {
        bytes: image.len() as u64,
    })
}

/// The end of a run of the abstract machine, as runs of images have it.
fn as_cpu_end(end: End) -> CpuEnd
    ensures { result ≡ as_end end }
{
    match end {
        End::Exit(code) => CpuEnd::Exit(code),
        End::Trap(statement) => CpuEnd::Trap(statement),
        End::Undefined(statement) => CpuEnd::Undefined(statement),
        End::UnitFault(statement, unit) => CpuEnd::UnitFault(statement, unit),
        End::Budget => CpuEnd::Budget,
        End::Memory => CpuEnd::Memory,
    }
}

/// `sim SRC TABLES PARAMS N`.
pub fn simulate<S: Store, U: UnitSet>(
    alloc: Global,
    names: &SourceFiles<'_>,
    steps: &Steps,
    store: &mut S,
    units: &mut U,
) -> Result<Ending, Stop>
    ensures { Performs (Some (simulates (names_by names.now) steps.now.most)) (ending_of result) []
        (S.files store.old) (S.files store.new) (S.faults store.old) (S.faults store.new)
        (U.seen units.old) (U.seen units.new) }
{
    let checked = program(alloc, names, store)?;
    let end = sim(alloc, &checked.program, &checked.params, steps.most, units);
    Ok(Ending::Ran(as_cpu_end(end)))
}

/// `go SRC TABLES PARAMS IMAGE N`.
pub fn go<S: Store, U: UnitSet>(
    alloc: Global,
    names: &SourceFiles<'_>,
    image_name: &str,
    steps: &Steps,
    store: &mut S,
    units: &mut U,
) -> Result<Ending, Stop>
    ensures { Performs (Some (goes (names_by names.now) image_name.now steps.now.most))
        (ending_of result) [] (S.files store.old) (S.files store.new)
        (S.faults store.old) (S.faults store.new) (U.seen units.old) (U.seen units.new) }
{
    let _saved = install_and_save(alloc, names, image_name, store)?;
    let bytes = image_bytes(alloc, store, image_name)?;
    let end = run_image(alloc, &bytes, steps.most, units)?;
    Ok(Ending::Ran(end))
}
