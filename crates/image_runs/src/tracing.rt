// Runs of an image that tell each statement as it is met.
ghost use Rattle.std.specs.Prelude.{◌≡◌, ◌≤◌, ℕ, None, List, IfOk, OnErr};
ghost use Rattle.unit_io.specs.Tapes.{Tapes};
ghost use Rattle.rv_emulate.specs.Cpus.{IsOf, state};
ghost use Rattle.rv_emulate.specs.EmulatorRuns.{listed, met_now};
ghost use Rattle.command_report.specs.Noted.{Noted, NotesMore};
ghost use Rattle.image_runs.specs.TracedRuns.{IsTraced, text_lines};
ghost use Rattle.image_runs.specs.FollowedRuns.{IsFollowed};

use crate::lines::traced_line;
use command_report::note_made;
use image_file::Image;
use rv_emulate::{Cpu, CpuEnd, CpuStep, budget};
use sil_base::{MAX_STEPS, Put, Sink};
use std::alloc::{AllocError, Global};
use unit_io::UnitSet;

/// How a traced run ended, and the first put of its lines that was not Ok.
#[derive(Debug, Drop)]
pub struct Traced {
    pub end: CpuEnd,
    pub put: Put,
}

/// Notes the statement that is met now, if there is one.
fn note_met<N: Sink>(alloc: Global, image: &Image, cpu: &Cpu, so_far: Put, notes: &mut N) -> Put
    requires { IsOf image.now cpu.now }
    ensures { (tapes : Tapes) → NotesMore so_far
        (text_lines image.now (listed (met_now image.now (state cpu.now tapes)))) result
        (N.text notes.old) (N.text notes.new) (N.faults notes.old) (N.faults notes.new) }
{
    match cpu.met() {
        Some(k) => note_made(notes, so_far, traced_line(alloc, image, k)),
        None => so_far,
    }
}

/// Makes at most `budget` steps, and notes each statement before the step that meets it.
fn follow<N: Sink, U: UnitSet>(
    alloc: Global,
    image: &Image,
    cpu: &mut Cpu,
    budget: u128,
    units: &mut U,
    notes: &mut N,
) -> Traced
    requires image { IsOf image.now cpu.now }
    requires begins { cpu.now.ended ≡ None }
    ensures { (lines : List ℕ)
        × IsFollowed image.now budget cpu.old result.end lines (U.seen units.old) (U.seen units.new)
        × Noted result.put lines
        (N.text notes.old) (N.text notes.new) (N.faults notes.old) (N.faults notes.new) }
{
    let mut put = Put::Ok;
    for turn in 0..budget {
        put = note_met(alloc, image, cpu, put, notes);
        match cpu.step(units) {
            CpuStep::Next => {}
            CpuStep::Ended(end) => return Traced { end, put },
        }
    }
    Traced {
        end: CpuEnd::Runaway,
        put,
    }
}

/// Runs an image for at most n statements, and notes a line as each statement is met.
pub fn trace_image<N: Sink, U: UnitSet>(
    alloc: Global,
    image: &Image,
    n: u64,
    units: &mut U,
    notes: &mut N,
) -> Result<Traced, AllocError>
    requires { n ≤ MAX_STEPS }
    ensures traced { IfOk result (λ traced. (lines : List ℕ)
        × IsTraced image.now n traced.end lines (U.seen units.old) (U.seen units.new)
        × Noted traced.put lines
        (N.text notes.old) (N.text notes.new) (N.faults notes.old) (N.faults notes.new)) }
    ensures still { OnErr result (U.seen units.new ≡ U.seen units.old) }
    ensures text { OnErr result (N.text notes.new ≡ N.text notes.old) }
    ensures count { OnErr result (N.faults notes.new ≡ N.faults notes.old) }
{
    let mut cpu = Cpu::new(alloc, image, n)?;
    Ok(follow(alloc, image, &mut cpu, budget(image, n), units, notes))
}
