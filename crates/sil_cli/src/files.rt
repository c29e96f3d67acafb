// Files that a command reads and writes.
ghost use Rattle.std.specs.Prelude.{◌≡◌, ◌≤◌, Ok, Err, false, true, ⊤, IfSome, IfErr, IsOkAnd, MatchResult};
ghost use Rattle.command_report.specs.Endings.{is_free};
ghost use Rattle.command_words.specs.HeldCommands.{names_by};
ghost use Rattle.image_file.specs.ImageGrammar.{IsImageFile};
ghost use Rattle.sil_cli.specs.Answer.{StopsRun};
ghost use Rattle.sil_cli.specs.CommandFiles.{NamesFile, StopCause, SavesOr, job_at, image_at};

use command_report::Stop;
use command_words::SourceFiles;
use image_file::Image;
use image_runs::read_image;
use sil_base::{Record, Save, Store, load_file};
use sil_check::{Checked, SourceNames, check};
use std::alloc::Global;

/// The bytes that an image file may have.
pub const MAX_IMAGE_BYTES: u64 = 1 << 30;

/// The program that the files of these names give.
pub fn program<S: Store>(
    alloc: Global,
    names: &SourceFiles<'_>,
    store: &mut S,
) -> Result<Checked, Stop>
    ensures told { IfSome (S.files store.old) (λ files. MatchResult result
        (λ job. job_at (names_by names.now) files ≡ Ok job)
        (λ e. is_free e ≡ false → job_at (names_by names.now) files ≡ Err e)) }
    ensures kept { S.files store.new ≡ S.files store.old }
    ensures count { S.faults store.old ≤ S.faults store.new }
    ensures cause { IfErr result
        (λ e. StopCause ⊥ e (S.faults store.old) (S.faults store.new)) }
{
    let names = SourceNames::of(alloc, names.source, names.tables, names.params)?;
    Ok(check(alloc, store, &names)?)
}

/// The bytes of an image file.
pub fn image_bytes<S: Store>(alloc: Global, store: &mut S, name: &str) -> Result<Vec<u8>, Stop>
    ensures told { IfSome (S.files store.old) (λ files. MatchResult result
        (λ bytes. image_at name.now files ≡ Ok bytes.items)
        (λ e. is_free e ≡ false → image_at name.now files ≡ Err e)) }
    ensures named { IfErr result (NamesFile name.now) }
    ensures kept { S.files store.new ≡ S.files store.old }
    ensures count { S.faults store.old ≤ S.faults store.new }
    ensures cause { IfErr result
        (λ e. StopCause ⊥ e (S.faults store.old) (S.faults store.new)) }
{
    Ok(load_file(alloc, store, name, MAX_IMAGE_BYTES)?)
}

/// The image that an image file has.
pub fn image<S: Store>(alloc: Global, store: &mut S, name: &str) -> Result<Image, Stop>
    ensures told { IfSome (S.files store.old) (λ files. MatchResult result
        (λ image. IsOkAnd (image_at name.now files) (IsImageFile image))
        (λ e. is_free e ≡ false → StopsRun (image_at name.now files) e)) }
    ensures kept { S.files store.new ≡ S.files store.old }
    ensures count { S.faults store.old ≤ S.faults store.new }
    ensures cause { IfErr result
        (λ e. StopCause ⊤ e (S.faults store.old) (S.faults store.new)) }
{
    let bytes = image_bytes(alloc, store, name)?;
    read_image(alloc, &bytes)
}

/// Saves a file, or says how that stops the command.
pub fn save<S: Store>(alloc: Global, store: &mut S, name: &str, bytes: &[u8]) -> Result<(), Stop>
    ensures saved { IfSome (S.files store.old)
        (λ files. SavesOr result name.now bytes.now files (S.files store.new)) }
    ensures named { IfErr result (NamesFile name.now) }
    ensures free { IfErr result (λ e. is_free e ≡ true) }
    ensures count { S.faults store.old ≤ S.faults store.new }
    ensures cause { IfErr result
        (λ e. StopCause ⊥ e (S.faults store.old) (S.faults store.new)) }
{
    match store.save(name, bytes) {
        Save::Ok => Ok(()),
        Save::Failed => Err(Stop::StoreFault(Record::of(alloc, name.as_bytes())?)),
        Save::Memory => Err(Stop::Memory),
    }
}
