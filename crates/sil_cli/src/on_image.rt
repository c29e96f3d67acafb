// The commands that take an image file, whatever its bytes.
ghost use Rattle.std.specs.Prelude.{Some, []};
ghost use Rattle.command_report.specs.Endings.{ending_of};
ghost use Rattle.command_words.specs.CommandOrders.{runs, traces, lists};
ghost use Rattle.unit_io.specs.Units.{AllUnits};
ghost use Rattle.sil_cli.specs.Answer.{Performs, Tells};

use crate::came::Came;
use crate::files::{image, image_bytes};
use command_report::{Ending, Stop};
use command_words::Steps;
use image_runs::{list_image, run_image, trace_image};
use sil_base::{Sink, Store};
use std::alloc::Global;
use unit_io::UnitSet;

/// `run IMAGE N`.
pub fn run_file<S: Store, U: UnitSet>(
    alloc: Global,
    image_name: &str,
    steps: &Steps,
    store: &mut S,
    units: &mut U,
) -> Result<Ending, Stop>
    ensures { Performs (Some (runs image_name.now steps.now.most)) (ending_of result) []
        (S.files store.old) (S.files store.new) (S.faults store.old) (S.faults store.new)
        (U.seen units.old) (U.seen units.new) }
{
    let bytes = image_bytes(alloc, store, image_name)?;
    let end = run_image(alloc, &bytes, steps.most, units)?;
    Ok(Ending::Ran(end))
}

/// `trace IMAGE N`, which notes a line as each statement is met.
pub fn trace_file<S: Store, N: Sink, U: UnitSet>(
    alloc: Global,
    image_name: &str,
    steps: &Steps,
    store: &mut S,
    units: &mut U,
    notes: &mut N,
) -> Came
    ensures { Tells (Some (traces image_name.now steps.now.most)) result.ending result.put
        (S.files store.old) (S.files store.new) (S.faults store.old) (S.faults store.new)
        (U.seen units.old) (U.seen units.new)
        (N.text notes.old) (N.text notes.new) (N.faults notes.old) (N.faults notes.new) }
{
    let image = match image(alloc, store, image_name) {
        Ok(image) => image,
        Err(stop) => return Came::quietly(Ending::Stopped(stop)),
    };
    match trace_image(alloc, &image, steps.most, units, notes) {
        Ok(traced) => Came {
            ending: Ending::Ran(traced.end),
            put: traced.put,
        },
        Err(_) => Came::quietly(Ending::Stopped(Stop::Memory)),
    }
}

/// `list IMAGE`, which notes a line for each statement.
pub fn list_file<S: Store, N: Sink>(
    alloc: Global,
    image_name: &str,
    store: &mut S,
    notes: &mut N,
) -> Came
    ensures { (units : AllUnits) → Tells (Some (lists image_name.now)) result.ending result.put
        (S.files store.old) (S.files store.new) (S.faults store.old) (S.faults store.new)
        units units
        (N.text notes.old) (N.text notes.new) (N.faults notes.old) (N.faults notes.new) }
{
    match image(alloc, store, image_name) {
        Ok(image) => Came {
            ending: Ending::Listed,
            put: list_image(alloc, &image, notes),
        },
        Err(stop) => Came::quietly(Ending::Stopped(stop)),
    }
}
