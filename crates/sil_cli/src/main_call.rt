// The top call.
ghost use Rattle.std.specs.Prelude.{◌≡◌, map, Some, None};
ghost use Rattle.std.specs.String.{string_bytes};
ghost use Rattle.sil_base.specs.Causes.{Rose};
ghost use Rattle.sil_base.specs.Files.{Files};
ghost use Rattle.command_report.specs.declared.ending.Stop.{Stop};
ghost use Rattle.command_report.specs.Endings.{has_run, stop_status};
ghost use Rattle.command_words.specs.CommandOrders.{command_of};
ghost use Rattle.command_words.specs.HeldCommands.{order_by};
ghost use Rattle.sil_cli.specs.Answer.{Finishes, Tells, Answers, StopsSo, IsStopped, IsMissing, IsTooLong, IsParameterFault, AreFaults, IsImageRefusal, IsNoted, IsUnless, IsNever};
ghost use Rattle.sil_cli.specs.Headline.{Headline, SimulatedHeadline, Reported};

use crate::came::Came;
use crate::command::{check_source, go, install_source, simulate};
use crate::demo::demo;
use crate::on_image::{list_file, run_file, trace_file};
use command_report::{Ending, Stop, after_finishes, note_ending, note_finishes, settle};
use command_words::{Command, read_command};
use sil_base::{Sink, Store};
use std::alloc::Global;
use unit_io::UnitSet;

/// What the program ends with.
#[derive(Debug, Drop)]
pub struct Status {
    pub code: u8,
}

/// Does what a command is told to do, up to the line of its ending, the finishes and the notes of both.
fn obey<S: Store, N: Sink, U: UnitSet>(
    alloc: Global,
    command: &Command<'_>,
    store: &mut S,
    units: &mut U,
    notes: &mut N,
) -> Came
    ensures { Tells (Some (order_by command.now)) result.ending result.put
        (S.files store.old) (S.files store.new) (S.faults store.old) (S.faults store.new)
        (U.seen units.old) (U.seen units.new)
        (N.text notes.old) (N.text notes.new) (N.faults notes.old) (N.faults notes.new) }
{
    match command {
        Command::Check { names } => Came::quietly(check_source(alloc, names, store).into()),
        Command::Install { names, image } => {
            Came::quietly(install_source(alloc, names, image, store).into())
        }
        Command::Run { image, steps } => {
            Came::quietly(run_file(alloc, image, steps, store, units).into())
        }
        Command::Trace { image, steps } => trace_file(alloc, image, steps, store, units, notes),
        Command::Sim { names, steps } => {
            Came::quietly(simulate(alloc, names, steps, store, units).into())
        }
        Command::List { image } => list_file(alloc, image, store, notes),
        Command::Go {
            names,
            image,
            steps,
        } => Came::quietly(go(alloc, names, image, steps, store, units).into()),
        Command::Demo { numbers } => demo(alloc, numbers, store, units, notes),
    }
}

/// Does what the words say, up to the line of its ending, the finishes and the notes of both.
fn perform<S: Store, N: Sink, U: UnitSet>(
    alloc: Global,
    words: &[String],
    store: &mut S,
    units: &mut U,
    notes: &mut N,
) -> Came
    ensures { Tells (command_of (map string_bytes words.now)) result.ending result.put
        (S.files store.old) (S.files store.new) (S.faults store.old) (S.faults store.new)
        (U.seen units.old) (U.seen units.new)
        (N.text notes.old) (N.text notes.new) (N.faults notes.old) (N.faults notes.new) }
{
    match read_command(alloc, words) {
        Ok(Some(command)) => obey(alloc, &command, store, units, notes),
        Ok(None) => Came::quietly(Ending::Words),
        Err(_) => Came::quietly(Ending::Stopped(Stop::Memory)),
    }
}

/// Finishes the units after a run, and answers how many failed.
fn finish<U: UnitSet>(ending: &Ending, units: &mut U) -> u32
    ensures { Finishes (has_run ending.now) (U.seen units.old) (U.seen units.new) result }
{
    match ending {
        Ending::Ran(_) => units.finish_all(),
        Ending::Words
        | Ending::Stopped(_)
        | Ending::Checked { .. }
        | Ending::Installed { .. }
        | Ending::Listed => 0,
    }
}

/// Does what the words say, and notes how it went.
pub fn sil_main<S: Store, N: Sink, U: UnitSet>(
    alloc: Global,
    words: &[String],
    store: &mut S,
    units: &mut U,
    notes: &mut N,
) -> Status
    ensures headline { Headline (command_of (map string_bytes words.now)) result.code
        (S.files store.old) (S.files store.new) (S.faults store.old) (S.faults store.new)
        (U.seen units.old) (U.seen units.new)
        (N.text notes.old) (N.text notes.new) (N.faults notes.old) (N.faults notes.new) }
    ensures simulated { SimulatedHeadline (command_of (map string_bytes words.now)) result.code
        (S.files store.old) (S.files store.new) (S.faults store.old) (S.faults store.new)
        (U.seen units.old) (U.seen units.new)
        (N.text notes.old) (N.text notes.new) (N.faults notes.old) (N.faults notes.new) }
    ensures reported { Reported (command_of (map string_bytes words.now)) result.code
        (S.files store.old) (S.files store.new) (S.faults store.old) (S.faults store.new)
        (U.seen units.old) (U.seen units.new)
        (N.text notes.old) (N.text notes.new) (N.faults notes.old) (N.faults notes.new) }
    ensures words { result.code ≡ 2 → command_of (map string_bytes words.now) ≡ None }
    ensures refused { command_of (map string_bytes words.now) ≡ None → IsNoted 2 result.code }
    ensures store_fault { result.code ≡ 10 → Rose (S.faults store.old) (S.faults store.new) }
    ensures missing { result.code ≡ 13
        → IsStopped (command_of (map string_bytes words.now)) (S.files store.old) IsMissing }
    ensures too_long { result.code ≡ 15
        → IsStopped (command_of (map string_bytes words.now)) (S.files store.old) IsTooLong }
    ensures parameters { result.code ≡ 4
        → IsStopped (command_of (map string_bytes words.now)) (S.files store.old)
        IsParameterFault }
    ensures faults { result.code ≡ 3
        → IsStopped (command_of (map string_bytes words.now)) (S.files store.old) AreFaults }
    ensures refused_image { result.code ≡ 5
        → IsStopped (command_of (map string_bytes words.now)) (S.files store.old)
        IsImageRefusal }
    ensures not_built { result.code ≡ 16
        → IsStopped (command_of (map string_bytes words.now)) (S.files store.old)
        (λ s. s ≡ Stop.NotBuilt) }
    ensures stops { (m : Files) → S.files store.old ≡ Some m → (s : Stop)
        → StopsSo (command_of (map string_bytes words.now)) m s
        → IsUnless (stop_status s) result.code }
    ensures notes_fault { result.code ≡ 14 → Rose (N.faults notes.old) (N.faults notes.new) }
    ensures never { IsNever (command_of (map string_bytes words.now)) result.code
        (S.files store.old) (U.seen units.old) }
    ensures answers { Answers (command_of (map string_bytes words.now)) result.code
        (S.files store.old) (S.files store.new) (S.faults store.old) (S.faults store.new)
        (U.seen units.old) (U.seen units.new)
        (N.text notes.old) (N.text notes.new) (N.faults notes.old) (N.faults notes.new) }
{
    let came = perform(alloc, words, store, units, notes);
    let line = note_ending(alloc, notes, came.put, &came.ending);
    let failed = finish(&came.ending, units);
    let put = note_finishes(notes, line, failed);
    let code = after_finishes(came.ending.status(), failed);
    Status {
        code: settle(put, code),
    }
}
