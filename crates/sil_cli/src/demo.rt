// A demo: a source that is made from two numbers.
ghost use Rattle.std.specs.Prelude.{◌≡◌, ◌≤◌, ℕ, Err, Some, false, IfOk, IfErr, IsOkAnd, MatchResult, codes};
ghost use Rattle.std.specs.Option.{option_map};
ghost use Rattle.std.specs.FinMap as map;
ghost use Rattle.sil_base.specs.Causes.{Rose};
ghost use Rattle.sil_base.specs.Files.{Files};
ghost use Rattle.sil_base.specs.Stores.{Loads, Saves, LoadedWithin};
ghost use Rattle.command_report.specs.Endings.{is_free};
ghost use Rattle.command_words.specs.CommandOrders.{demos};
ghost use Rattle.sil_check.specs.CheckedPrograms.{Job};
ghost use Rattle.sil_install.specs.Installed.{IsInstalled};
ghost use Rattle.sil_cli.specs.Answer.{Tells};
ghost use Rattle.sil_cli.specs.CommandFiles.{StopCause};
ghost use Rattle.sil_cli.specs.DemoJobs.{demo_files, demo_job};

use crate::came::Came;
use crate::command::prepare;
use command_report::{Ending, Stop, note_demo};
use command_words::{DemoNumbers, SourceFiles};
use demo_source::{demo_params, demo_source};
use image_runs::run_image;
use sil_base::{Load, MemoryStore, Put, Save, Sink, Store};
use std::alloc::{AllocError, Global};
use unit_io::UnitSet;

/// The files of a demo. Nothing is saved there, and no load fails.
#[derive(Drop)]
struct DemoFiles {
    files: MemoryStore,
}

impl DemoFiles {
    /// The files of the demo of these numbers.
    fn new(alloc: Global, numbers: &DemoNumbers) -> Result<DemoFiles, AllocError>
        ensures { IfOk result (λ demo. demo.files.files ≡ demo_files numbers.now.cards numbers.now.seed) }
    {
        let source = demo_source(alloc, numbers.cards, numbers.seed)?;
        let mut files = MemoryStore::new(alloc, Vec::new(alloc));
        files.set("tables", b"")?;
        files.set("params", demo_params())?;
        files.set("source", &source)?;
        Ok(DemoFiles { files })
    }
}

impl Store for DemoFiles {
    ghost files = { λ demo. Some demo.files.files };

    ghost faults = { λ demo. 0 };

    fn load(&mut self, name: &str, limit: u64, into: &mut Vec<u8>) -> Load
        ensures loaded { Loads result name.now limit into.new.items (Some self.old.files.files) }
        ensures within { LoadedWithin result limit into.new.items }
        ensures kept { Some self.new.files.files ≡ Some self.old.files.files }
        ensures count { 0 ≤ 0 }
        ensures failed { result ≡ Load.Failed → Rose 0 0 }
    {
        into.clear();
        let Some(bytes) = self.files.get(name) else {
            return Load::Missing;
        };
        if bytes.len() as u64 > limit {
            return Load::TooLong;
        }
        match into.extend_from_slice(bytes) {
            Ok(()) => Load::Ok,
            Err(_) => Load::Memory,
        }
    }

    fn save(&mut self, _name: &str, _bytes: &[u8]) -> Save
        ensures saved { Saves result _name.now _bytes.now (Some self.old.files.files) (Some self.new.files.files) }
        ensures count { 0 ≤ 0 }
        ensures failed { result ≡ Save.Failed → Rose 0 0 }
    {
        Save::Memory
    }
}

/// The bytes of the image of a demo.
fn demo_image(alloc: Global, numbers: &DemoNumbers) -> Result<Vec<u8>, Stop>
    ensures told { MatchResult result
        (λ image. IsOkAnd (demo_job numbers.now.cards numbers.now.seed)
        (λ job. IsInstalled image.items job.program job.parameters))
        (λ e. is_free e ≡ false → demo_job numbers.now.cards numbers.now.seed ≡ Err e) }
    ensures cause { IfErr result (λ e. (n : ℕ) → StopCause ⊥ e n n) }
{
    let mut files = DemoFiles::new(alloc, numbers)?;
    let names = SourceFiles {
        source: "source",
        tables: "tables",
        params: "params",
    };
    prepare(alloc, &names, &mut files)
}

/// `demo N SEED`.
pub fn demo<S: Store, N: Sink, U: UnitSet>(
    alloc: Global,
    numbers: &DemoNumbers,
    store: &mut S,
    units: &mut U,
    notes: &mut N,
) -> Came
    ensures { Tells (Some (demos numbers.now.cards numbers.now.seed)) result.ending result.put
        (S.files store.old) (S.files store.new) (S.faults store.old) (S.faults store.new)
        (U.seen units.old) (U.seen units.new)
        (N.text notes.old) (N.text notes.new) (N.faults notes.old) (N.faults notes.new) }
{
    let image = match demo_image(alloc, numbers) {
        Ok(image) => image,
        Err(stop) => return Came::quietly(Ending::Stopped(stop)),
    };
    let cards = u64::from(numbers.cards);
    let put = note_demo(alloc, notes, Put::Ok, cards, image.len() as u64);
    match run_image(alloc, &image, cards + 2, units) {
        Ok(end) => Came {
            ending: Ending::Ran(end),
            put,
        },
        Err(stop) => Came {
            ending: Ending::Stopped(stop),
            put,
        },
    }
}
