// Runs of an image's bytes.
ghost use Rattle.std.specs.Prelude.{◌≡◌, ◌≤◌, ◌^◌, IfOk, IfErr, MatchResult, OnErr};
ghost use Rattle.image_file.specs.ImageGrammar.{IsImageFile};
ghost use Rattle.image_file.specs.Image.{Image, IsImage};
ghost use Rattle.image_file.specs.Spelling.{spelling};
ghost use Rattle.unit_io.specs.Units.{tapes_of};
ghost use Rattle.image_runs.specs.ImageRuns.{FaultCause, RunsSo, RunsBytes, IsRefusedRun};

use command_report::Stop;
use image_file::{Image, load_image};
use rv_emulate::{Cpu, CpuEnd, budget};
use sil_base::MAX_STEPS;
use std::alloc::{AllocError, Global};
use unit_io::UnitSet;

/// Runs an image for at most n statements.
fn run<U: UnitSet>(
    alloc: Global,
    image: &Image,
    n: u64,
    units: &mut U,
) -> Result<CpuEnd, AllocError>
    requires { n ≤ MAX_STEPS }
    ensures ran { IfOk result (λ end. RunsSo image.now n end
        (tapes_of (U.seen units.old)) (tapes_of (U.seen units.new))) }
    ensures faults { IfOk result (λ end. FaultCause end (U.seen units.old) (U.seen units.new)) }
    ensures still { OnErr result (U.seen units.new ≡ U.seen units.old) }
{
    let mut cpu = Cpu::new(alloc, image, n)?;
    Ok(cpu.run(units, budget(image, n)))
}

/// The image whose spelling these bytes are. Bytes that are none are refused by the first of their
/// parts that differs or is cut short.
pub fn read_image(alloc: Global, bytes: &[u8]) -> Result<Image, Stop>
    ensures read { IfOk result (λ image. IsImageFile image bytes.now) }
    ensures refused { IfErr result (λ e. IsRefusedRun e bytes.now) }
    ensures again { (image : Image) → IsImage image → bytes.now ≡ spelling image
        → MatchResult result (λ i. i ≡ image) (λ e. e ≡ Stop.Memory) }
{
    Ok(load_image(alloc, bytes)?)
}

/// Runs the bytes of an image for at most n statements. Bytes that are none are refused by the
/// first of their parts that differs or is cut short.
pub fn run_image<U: UnitSet>(
    alloc: Global,
    bytes: &[u8],
    n: u64,
    units: &mut U,
) -> Result<CpuEnd, Stop>
    requires { n ≤ MAX_STEPS }
    ensures ran { IfOk result (λ end. RunsBytes bytes.now n end
        (tapes_of (U.seen units.old)) (tapes_of (U.seen units.new))) }
    ensures faults { IfOk result (λ end. FaultCause end (U.seen units.old) (U.seen units.new)) }
    ensures read { IfOk result (λ _. (image : Image) × IsImageFile image bytes.now) }
    ensures refused { IfErr result (λ e. IsRefusedRun e bytes.now) }
    ensures accepts { (image : Image) → IsImage image → bytes.now ≡ spelling image
        → IfErr result (λ e. e ≡ Stop.Memory) }
    ensures still { OnErr result (U.seen units.new ≡ U.seen units.old) }
{
    let image = read_image(alloc, bytes)?;
    Ok(run(alloc, &image, n, units)?)
}
