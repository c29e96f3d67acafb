// A page of commands, and what they answer.
use crate::printed::{output, printed};
use sil_base::{MemorySink, MemoryStore};
use sil_cli::sil_main;
use std::alloc::{AllocError, Global};
use std::io;
use unit_io::Units;

/// What stands before a command on a page.
const PROMPT: &str = "$ ./sil ";

/// The words of a command.
fn words_of(alloc: Global, command: &str) -> Result<Vec<String>, AllocError> {
    let mut words = Vec::new(alloc);
    for word in command.split(' ') {
        words.push(String::from_str(alloc, word)?)?;
    }
    Ok(words)
}

/// What a command answers, as a page has it: what it prints on unit 6, each record behind `< `, its
/// notes, and its status behind `= `.
fn answer(alloc: Global, store: &mut MemoryStore, command: &str) -> io::Result<Vec<u8>> {
    let words = words_of(alloc, command)?;
    let mut notes = MemorySink::new(alloc, Vec::new(alloc));
    let mut units = Units::new();
    let _ = units.attach(6, Box::new(alloc, output(alloc))?);
    let status = sil_main(alloc, &words, store, &mut units, &mut notes);
    let mut text = printed(alloc, units.detach(6), b"< ")?;
    text.extend_from_slice(notes.bytes())?;
    let last = format!(in alloc; "= {}\n", status.code)?;
    text.extend_from_slice(last.as_bytes())?;
    Ok(text)
}

/// Whether the commands of a page, one after another over these files, answer as its lines behind
/// four blanks say.
pub fn is_as_told(alloc: Global, store: &mut MemoryStore, page: &str) -> io::Result<bool> {
    let mut told = Vec::new(alloc);
    let mut answered = Vec::new(alloc);
    for line in page.lines() {
        let Some(line) = line.strip_prefix("    ") else {
            continue;
        };
        match line.strip_prefix(PROMPT) {
            Some(command) => answered.extend_from_slice(&answer(alloc, store, command)?)?,
            None => {
                told.extend_from_slice(line.as_bytes())?;
                told.push(b'\n')?;
            }
        }
    }
    Ok(told.as_slice() == answered.as_slice())
}
