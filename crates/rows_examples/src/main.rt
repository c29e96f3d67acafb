// Runs the examples that its words name, and says of each whether it ends as its file `expected` says;
// and the commands of pages, and says whether they answer as the page has it.
#![tactic(auto)]

mod page;
mod printed;

use crate::page::is_as_told;
use crate::printed::{output, printed};
use sil_base::{MemorySink, MemoryStore};
use sil_cli::sil_main;
use std::alloc::Global;
use std::process::ExitCode;
use std::{env, fs, io};
use unit_io::Units;

/// The files of an example, by the names that its sources and the program's words have for them.
fn files_of(rt: &HostRuntime, folder: &str) -> io::Result<MemoryStore> {
    let mut store = MemoryStore::new(rt.alloc(), Vec::new(rt.alloc()));
    for entry in fs::read_dir(rt, folder)? {
        let entry = entry?;
        let bytes = fs::read(rt, entry.path())?;
        store.set(entry.path().as_str(), &bytes)?;
    }
    Ok(store)
}

/// `go` on the files of an example, for at most a hundred steps.
fn words_of(alloc: Global, folder: &str) -> io::Result<Vec<String>> {
    let mut words = Vec::new(alloc);
    words.push(String::from_str(alloc, "go")?)?;
    for name in ["source", "tables", "params", "image"] {
        words.push(format!(in alloc; "{folder}/{name}")?)?;
    }
    words.push(String::from_str(alloc, "100")?)?;
    Ok(words)
}

/// Whether an example says and prints what it is expected to: its notes are its file `expected`, and
/// what unit 6 holds is its file `printed`.
fn is_as_expected(rt: &HostRuntime, folder: &str) -> io::Result<bool> {
    let alloc = rt.alloc();
    let mut store = files_of(rt, folder)?;
    let words = words_of(alloc, folder)?;
    let mut notes = MemorySink::new(alloc, Vec::new(alloc));
    let mut units = Units::new();
    let _ = units.attach(6, Box::new(alloc, output(alloc))?);
    let _ = sil_main(alloc, &words, &mut store, &mut units, &mut notes);
    let text = printed(alloc, units.detach(6), b"")?;
    let expected = format!(in alloc; "{folder}/expected")?;
    let wanted = format!(in alloc; "{folder}/printed")?;
    Ok(
        store
            .get(expected.as_str())
            .is_some_and(|bytes| bytes == notes.bytes())
            && store.get(wanted.as_str()).unwrap_or(b"") == text.as_slice(),
    )
}

/// The folder of the example that pages run.
const OF_PAGES: &str = "examples/hello";

/// Whether the commands of a page answer as it says, over the files of an example.
fn is_page_true(rt: &HostRuntime, name: &str) -> io::Result<bool> {
    let mut store = files_of(rt, OF_PAGES)?;
    let page = fs::read_to_string(rt, name)?;
    is_as_told(rt.alloc(), &mut store, page.as_str())
}

/// Runs each example and each page; the answer says whether all are as expected.
fn run(rt: &HostRuntime) -> io::Result<bool> {
    let mut all = true;
    for name in env::args(rt)?.skip(1) {
        let is = if name.ends_with(".md") {
            is_page_true(rt, name.as_str())?
        } else {
            is_as_expected(rt, name.as_str())?
        };
        println!(rt;
            "{name}: {}",
            if is {
                "as expected"
            } else {
                "other than expected"
            }
        )?;
        all = all && is;
    }
    Ok(all)
}

fn main(rt: HostRuntime) -> ExitCode {
    match run(&rt) {
        Ok(true) => ExitCode::SUCCESS,
        _ => ExitCode::FAILURE,
    }
}
