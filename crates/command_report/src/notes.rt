// Notes: lines on a sink, up to the first put that isn't Ok.
ghost use Rattle.std.specs.Prelude.{◌≡◌, ℕ, List, IfOk};
ghost use Rattle.command_report.specs.Endings.{line_of, stop_line, fault_line, fault_lines, demo_line};
ghost use Rattle.command_report.specs.Noted.{NotesMore, settled, without_memory, finish_lines};

use crate::ending::{Ending, Stop};
use crate::lines::{checked, demo, fault_line, installed, named, numbered, run_line};
use sil_base::{Fault, Put, Sink};
use std::alloc::{AllocError, Global};

/// Puts a line, unless an earlier put was not Ok, and answers the first put that was not.
pub fn note<N: Sink>(notes: &mut N, so_far: Put, line: &[u8]) -> Put
    ensures { NotesMore so_far line.now result
        (N.text notes.old) (N.text notes.new) (N.faults notes.old) (N.faults notes.new) }
{
    match so_far {
        Put::Ok => notes.put(line),
        _ => so_far,
    }
}

/// Puts a line that was made, if there was memory for it.
pub fn note_made<N: Sink>(notes: &mut N, so_far: Put, line: Result<Vec<u8>, AllocError>) -> Put
    ensures { (text : List ℕ) → IfOk line (λ l. l.items ≡ text) →
        NotesMore so_far text result (N.text notes.old) (N.text notes.new) (N.faults notes.old) (N.faults notes.new) }
{
    match line {
        Ok(line) => note(notes, so_far, &line),
        Err(_) => without_memory(so_far),
    }
}

/// What comes of a note for which there was no memory.
fn without_memory(so_far: Put) -> Put
    ensures { result ≡ without_memory so_far }
{
    match so_far {
        Put::Ok => Put::Memory,
        Put::Failed => Put::Failed,
        Put::Memory => Put::Memory,
    }
}

/// Notes a line that breaks a rule.
fn note_fault<N: Sink>(alloc: Global, notes: &mut N, so_far: Put, fault: &Fault) -> Put
    ensures { NotesMore so_far (fault_line fault.now) result
        (N.text notes.old) (N.text notes.new) (N.faults notes.old) (N.faults notes.new) }
{
    note_made(notes, so_far, fault_line(alloc, fault))
}

/// Notes the lines that break rules, each by a put of its own.
fn note_faults<N: Sink>(alloc: Global, notes: &mut N, so_far: Put, faults: &[Fault]) -> Put
    ensures { NotesMore so_far (fault_lines faults.now) result
        (N.text notes.old) (N.text notes.new) (N.faults notes.old) (N.faults notes.new) }
{
    let mut put = so_far;
    for fault in faults {
        put = note_fault(alloc, notes, put, fault);
    }
    put
}

/// Notes what stopped a command.
fn note_stop<N: Sink>(alloc: Global, notes: &mut N, so_far: Put, stop: &Stop) -> Put
    ensures { NotesMore so_far (stop_line stop.now) result
        (N.text notes.old) (N.text notes.new) (N.faults notes.old) (N.faults notes.new) }
{
    match stop {
        Stop::Missing(name) => note_made(notes, so_far, named(alloc, b"missing ", name)),
        Stop::TooLong(name) => note_made(notes, so_far, named(alloc, b"too long ", name)),
        Stop::StoreFault(name) => note_made(notes, so_far, named(alloc, b"store fault ", name)),
        Stop::Parameters(fault) => note_fault(alloc, notes, so_far, fault),
        Stop::Faults(faults) => note_faults(alloc, notes, so_far, faults.items()),
        Stop::NotBuilt => note(notes, so_far, b"not built\n"),
        Stop::ImageRefused(part) => {
            note_made(
                notes,
                so_far,
                numbered(alloc, b"image refused I", u64::from(*part)),
            )
        }
        Stop::Memory => note(notes, so_far, b"memory\n"),
    }
}

/// Puts the line of an ending, if it has one. What was noted before goes on so.
pub fn note_ending<N: Sink>(alloc: Global, notes: &mut N, so_far: Put, ending: &Ending) -> Put
    ensures { NotesMore so_far (line_of ending.now) result
        (N.text notes.old) (N.text notes.new) (N.faults notes.old) (N.faults notes.new) }
{
    match ending {
        Ending::Words => note(notes, so_far, b"words\n"),
        Ending::Stopped(stop) => note_stop(alloc, notes, so_far, stop),
        Ending::Checked { statements, cells } => {
            note_made(notes, so_far, checked(alloc, *statements, *cells))
        }
        Ending::Installed { bytes } => note_made(notes, so_far, installed(alloc, *bytes)),
        Ending::Listed => so_far,
        Ending::Ran(end) => note_made(notes, so_far, run_line(alloc, *end)),
    }
}

/// Notes that a demo of so many statements was installed, in an image of so many bytes.
pub fn note_demo<N: Sink>(
    alloc: Global,
    notes: &mut N,
    so_far: Put,
    statements: u64,
    bytes: u64,
) -> Put
    ensures { NotesMore so_far (demo_line statements bytes) result
        (N.text notes.old) (N.text notes.new) (N.faults notes.old) (N.faults notes.new) }
{
    note_made(notes, so_far, demo(alloc, statements, bytes))
}

/// Notes that finishes failed, where some did. What was noted before goes on so.
pub fn note_finishes<N: Sink>(notes: &mut N, so_far: Put, failed: u32) -> Put
    ensures { NotesMore so_far (finish_lines failed) result
        (N.text notes.old) (N.text notes.new) (N.faults notes.old) (N.faults notes.new) }
{
    if failed == 0 {
        return so_far;
    }
    note(notes, so_far, b"finish fault\n")
}

/// A status after the notes.
pub fn settle(put: Put, code: u8) -> u8
    ensures { result ≡ settled put code }
{
    match put {
        Put::Ok => code,
        Put::Failed if code < 10 || code == 16 => 14,
        Put::Failed => code,
        Put::Memory => 12,
    }
}
