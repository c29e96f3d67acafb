// What commands answer over the files of a row.
use crate::block::Block;
use crate::files::first_word;
use sil_base::{MemorySink, MemoryStore, Record};
use sil_cli::sil_main;
use std::alloc::{AllocError, Global};
use std::io;
use unit_io::{Tape, Unit, Units};

/// The lines that commands noted, the records that they left on unit 6, with an LF behind each, and
/// whether their statuses and images are those of such lines.
#[derive(Drop)]
pub struct Answer {
    pub notes: Vec<u8>,
    pub printed: Vec<u8>,
    pub fits: bool,
}

/// The status of a command whose last line this is.
fn status_of(line: &str) -> u8 {
    let word = first_word(line);
    if word == "exit" {
        u8::from(line != "exit 0")
    } else if word == "source" || word == "tables" {
        3
    } else if word == "undefined" {
        7
    } else if word == "budget" {
        8
    } else if word == "trap" {
        6
    } else {
        status_of_others(word)
    }
}

/// The same, of the words that a run and a source that breaks rules don't end with.
fn status_of_others(word: &str) -> u8 {
    if word == "words" {
        2
    } else if word == "params" {
        4
    } else if word == "image" {
        5
    } else if word == "machine" {
        9
    } else if word == "missing" {
        13
    } else if word == "not" {
        16
    } else {
        0
    }
}

/// The last line of a text.
pub fn last_line(text: &str) -> &str {
    text.lines().last().unwrap_or("")
}

/// The words of a command.
fn words_of(alloc: Global, command: &str) -> Result<Vec<String>, AllocError> {
    let mut words = Vec::new(alloc);
    for word in command.split(' ') {
        words.push(String::from_str(alloc, word)?)?;
    }
    Ok(words)
}

/// Puts the records of a unit.
fn put_records(text: &mut Vec<u8>, unit: Option<Box<dyn Unit>>) -> Result<(), AllocError> {
    let Some(unit) = unit else {
        return Ok(());
    };
    for record in unit.known().unwrap_or(&[]) {
        text.extend_from_slice(record.bytes())?;
        text.push(b'\n')?;
    }
    Ok(())
}

/// Whether a command's status is that of its last line, and an image is there behind `go` exactly
/// where a run ended; other commands but `install` leave it there or not, as it was.
fn is_fitting(command: &str, code: u8, notes: &[u8], had: bool, has: bool) -> bool {
    let Ok(text) = str::from_utf8(notes) else {
        return false;
    };
    let word = first_word(command);
    let saved = if word == "go" {
        has == (had || matches!(code, 0 | 1 | 6 | 7 | 8))
    } else {
        word == "install" || has == had
    };
    saved && code == status_of(last_line(text))
}

/// Gives a command over these files, and puts what it answers behind other answers.
fn give(
    alloc: Global,
    store: &mut MemoryStore,
    command: &str,
    answer: &mut Answer,
) -> io::Result<()> {
    let words = words_of(alloc, command)?;
    let mut notes = MemorySink::new(alloc, Vec::new(alloc));
    let mut units = Units::new();
    let tape = Tape::new(alloc, Vec::<Record>::new(alloc), Vec::new(alloc));
    let _ = units.attach(6, Box::new(alloc, tape)?);
    let had = store.get("IMAGE").is_some();
    let status = sil_main(alloc, &words, store, &mut units, &mut notes);
    let has = store.get("IMAGE").is_some();
    let fits = is_fitting(command, status.code, notes.bytes(), had, has);
    answer.fits = answer.fits && fits;
    answer.notes.extend_from_slice(notes.bytes())?;
    put_records(&mut answer.printed, units.detach(6))?;
    Ok(())
}

/// What commands answer, one after another over the same files.
pub fn answer_to(
    alloc: Global,
    store: &mut MemoryStore,
    commands: &[String],
) -> io::Result<Answer> {
    let mut answer = Answer {
        notes: Vec::new(alloc),
        printed: Vec::new(alloc),
        fits: true,
    };
    for command in commands {
        give(alloc, store, command.as_str(), &mut answer)?;
    }
    Ok(answer)
}

/// The commands that a row is run by: `check` where it says how a check ends; `go` and `sim` where it
/// says how a run ends; all three where it says what is wrong with its files.
pub fn commands_of(alloc: Global, row: &Block, steps: &str) -> Result<Vec<String>, AllocError> {
    let mut commands = Vec::new(alloc);
    let last = last_line(row.notes.as_str());
    let word = first_word(last);
    let is_checked = word == "checked" || last == NO_FAULTS;
    if is_checked || matches!(status_of(last), 3 | 4 | 13 | 16) {
        commands.push(String::from_str(alloc, "check SRC TABLES PARAMS")?)?;
    }
    if !is_checked {
        commands.push(format!(in alloc; "go SRC TABLES PARAMS IMAGE {steps}")?)?;
        commands.push(format!(in alloc; "sim SRC TABLES PARAMS {steps}")?)?;
    }
    Ok(commands)
}

/// What a row says of a source that breaks no rule, whether its macros are installed so far or not.
const NO_FAULTS: &str = "no faults";

/// Whether an answer is what a row says.
pub fn is_as_told(answer: &Answer, row: &Block) -> bool {
    let noted = if last_line(row.notes.as_str()) == NO_FAULTS {
        answer.notes.starts_with(b"checked ")
            || answer.notes.as_slice() == b"not built\n".as_slice()
    } else {
        answer.notes.as_slice() == row.notes.as_bytes()
    };
    answer.fits && noted && answer.printed.as_slice() == row.printed.as_bytes()
}
