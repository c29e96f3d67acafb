// Rows of the real units, attached as the program attaches them. Unit 6 says what each call answers.
#![tactic(auto)]

use real_units::{FileUnit, InputUnit, OutputUnit};
use sil_base::Record;
use std::alloc::{AllocError, Global};
use std::process::ExitCode;
use std::{fs, io};
use unit_io::{UnitSet, Units, UnitsAnswer, UnitsRead};

/// A call of a unit.
#[derive(Clone, Copy)]
enum Call {
    Read,
    Write(&'static [u8]),
    Rewind,
    Backspace,
    Endfile,
}

/// Calls in order. `unit.3` has three records, of which the last has no LF; `unit.8` has three, and
/// there is no `unit.7`.
const CALLS: [(u32, Call); 43] = [
    // standard input: the last record has no LF
    (5, Call::Read),
    (5, Call::Read),
    (5, Call::Read),
    (5, Call::Write(b"LOST")),
    (5, Call::Rewind),
    (5, Call::Backspace),
    (5, Call::Endfile),
    // standard output
    (6, Call::Read),
    (6, Call::Rewind),
    (6, Call::Backspace),
    (6, Call::Endfile),
    // records with a CR, of no bytes, and without an LF
    (3, Call::Read),
    (3, Call::Read),
    (3, Call::Read),
    (3, Call::Read),
    (3, Call::Backspace),
    (3, Call::Write(b"more")),
    (3, Call::Read),
    (3, Call::Rewind),
    (3, Call::Read),
    (3, Call::Read),
    (3, Call::Read),
    (3, Call::Read),
    (3, Call::Read),
    // a write drops what follows the place
    (8, Call::Read),
    (8, Call::Write(b"TWO")),
    (8, Call::Read),
    (8, Call::Rewind),
    (8, Call::Read),
    (8, Call::Read),
    (8, Call::Read),
    // a file that isn't there, that is made, and that is made anew
    (7, Call::Read),
    (7, Call::Write(b"first")),
    (7, Call::Write(b"second")),
    (7, Call::Endfile),
    (7, Call::Read),
    (7, Call::Rewind),
    (7, Call::Read),
    (7, Call::Rewind),
    (7, Call::Write(b"third")),
    (7, Call::Rewind),
    (7, Call::Read),
    (7, Call::Read),
];

/// The word for what a call answers.
fn word_of(answer: UnitsAnswer) -> &'static str {
    match answer {
        UnitsAnswer::Ok => "ok",
        UnitsAnswer::Failed => "failed",
        UnitsAnswer::Memory => "memory",
        UnitsAnswer::Absent => "absent",
    }
}

/// What a call answers, as a record: a word, or what was read in brackets.
fn answer_of<U: UnitSet>(
    alloc: Global,
    units: &mut U,
    n: u32,
    call: Call,
) -> Result<Vec<u8>, AllocError> {
    let mut into = [0u8; 8];
    let word = match call {
        Call::Read => match units.read(n, &mut into) {
            UnitsRead::Rec(count) => {
                let mut line = Vec::from_slice(alloc, b"[")?;
                line.extend_from_slice(&into[..count])?;
                line.push(b']')?;
                return Ok(line);
            }
            UnitsRead::End => "end",
            UnitsRead::Failed => "failed",
            UnitsRead::Absent => "absent",
        },
        Call::Write(bytes) => word_of(units.write_all(n, &[Record::of(alloc, bytes)?])),
        Call::Rewind => word_of(units.rewind(n)),
        Call::Backspace => word_of(units.backspace(n)),
        Call::Endfile => word_of(units.endfile(n)),
    };
    Vec::from_slice(alloc, word.as_bytes())
}

/// Makes the calls, and says of each what it answers.
fn make_calls<U: UnitSet>(alloc: Global, units: &mut U) -> Result<(), AllocError> {
    for (n, call) in CALLS {
        let mut line = Vec::from_slice(alloc, format!(in alloc; "{n} ")?.as_bytes())?;
        let answer = answer_of(alloc, units, n, call)?;
        line.extend_from_slice(&answer)?;
        let _ = units.write_all(6, &[Record::of(alloc, &line)?]);
    }
    Ok(())
}

/// Attaches the units, makes the calls, and says how many finishes failed and which files are there.
fn run(rt: &HostRuntime) -> io::Result<()> {
    let alloc = rt.alloc();
    let mut units = Units::new();
    let _ = units.attach(5, Box::new(alloc, InputUnit::new(alloc, rt.stdin())?)?);
    let _ = units.attach(6, Box::new(alloc, OutputUnit::new(alloc, rt.stdout())?)?);
    for n in 1..9 {
        if n < 4 || n > 6 {
            let _ = units.attach(n, Box::new(alloc, FileUnit::new(*rt, alloc, n)?)?);
        }
    }
    make_calls(alloc, &mut units)?;
    let failed = units.close_all();
    println!(rt; "{failed} finishes failed")?;
    for name in ["unit.2", "unit.3", "unit.7"] {
        let there = fs::exists(rt, name)?;
        println!(rt; "{name} {}", if there { "is there" } else { "isn't there" })?;
    }
    Ok(())
}

fn main(rt: HostRuntime) -> ExitCode {
    match run(&rt) {
        Ok(()) => ExitCode::SUCCESS,
        Err(_) => ExitCode::FAILURE,
    }
}
