// Rows of tapes, and of units in boxes.
ghost use Rattle.std.specs.Prelude.{◌≡◌, ◌≤◌, None};
ghost use Rattle.sil_base.specs.Causes.{Rose};

use sil_base::Record;
use std::alloc::{AllocError, Global};
use std::cell::Cell;
use std::rc::Rc;
use std::test::Fail;
use unit_io::{ReadAnswer, Tape, Unit, UnitAnswer, UnitSet, Units, UnitsAnswer, UnitsRead};

/// A tape of these records.
fn tape(alloc: Global, records: &[&[u8]], fails: &[u64]) -> Result<Tape, AllocError> {
    let mut all = Vec::new(alloc);
    for bytes in records {
        all.push(Record::of(alloc, bytes)?)?;
    }
    Ok(Tape::new(alloc, all, Vec::from_slice(alloc, fails)?))
}

/// Whether a unit tells just these records.
fn holds<U: Unit>(unit: &U, want: &[&[u8]]) -> bool {
    let Some(records) = unit.known() else {
        return false;
    };
    if records.len() != want.len() {
        return false;
    }
    for (record, bytes) in records.iter().zip(want) {
        if record.bytes() != *bytes {
            return false;
        }
    }
    true
}

/// A call of a unit, with what a read leaves of four dots.
#[derive(Clone, Copy)]
pub enum Call {
    Read(ReadAnswer, &'static [u8; 4]),
    Write(&'static [u8], UnitAnswer),
    Rewind(UnitAnswer),
    Backspace(UnitAnswer),
    Endfile(UnitAnswer),
    Finish(UnitAnswer),
}

impl Call {
    /// Makes the call, and says whether it answers so, or that memory ran out.
    pub fn answers<U: Unit>(self, unit: &mut U) -> Result<bool, AllocError> {
        Ok(match self {
            Call::Read(answer, left) => {
                let mut into = *b"....";
                unit.read(&mut into) == answer && into == *left
            }
            Call::Write(bytes, answer) => {
                let made = unit.write(bytes);
                if made == UnitAnswer::Memory {
                    return Err(AllocError);
                }
                made == answer
            }
            Call::Rewind(answer) => unit.rewind() == answer,
            Call::Backspace(answer) => unit.backspace() == answer,
            Call::Endfile(answer) => unit.endfile() == answer,
            Call::Finish(answer) => unit.finish() == answer,
        })
    }
}

/// Calls of a tape of these records, and the records that they leave.
struct Script {
    records: &'static [&'static [u8]],
    fails: &'static [u64],
    calls: &'static [Call],
    left: &'static [&'static [u8]],
}

const SCRIPTS: [Script; 6] = [
    // a write drops what follows the place
    Script {
        records: &[b"A", b"B"],
        fails: &[],
        calls: &[
            Call::Read(ReadAnswer::Rec(1), b"A..."),
            Call::Rewind(UnitAnswer::Ok),
            Call::Write(b"C", UnitAnswer::Ok),
            Call::Backspace(UnitAnswer::Ok),
            Call::Read(ReadAnswer::Rec(1), b"C..."),
            Call::Read(ReadAnswer::End, b"...."),
        ],
        left: &[b"C"],
    },
    // short reads, and one that fails
    Script {
        records: &[b"AB", b"ABCDE"],
        fails: &[3],
        calls: &[
            Call::Read(ReadAnswer::Rec(2), b"AB.."),
            Call::Read(ReadAnswer::Rec(4), b"ABCD"),
            Call::Read(ReadAnswer::Failed, b"...."),
            Call::Read(ReadAnswer::End, b"...."),
        ],
        left: &[b"AB", b"ABCDE"],
    },
    // the end of the file drops what follows the place
    Script {
        records: &[b"A", b"", b"C"],
        fails: &[],
        calls: &[
            Call::Read(ReadAnswer::Rec(1), b"A..."),
            Call::Read(ReadAnswer::Rec(0), b"...."),
            Call::Endfile(UnitAnswer::Ok),
            Call::Read(ReadAnswer::End, b"...."),
            Call::Finish(UnitAnswer::Ok),
        ],
        left: &[b"A", b""],
    },
    // no place lies before the first record
    Script {
        records: &[b"A"],
        fails: &[],
        calls: &[
            Call::Backspace(UnitAnswer::Ok),
            Call::Read(ReadAnswer::Rec(1), b"A..."),
            Call::Backspace(UnitAnswer::Ok),
            Call::Backspace(UnitAnswer::Ok),
            Call::Read(ReadAnswer::Rec(1), b"A..."),
        ],
        left: &[b"A"],
    },
    // calls that fail leave the records and the place
    Script {
        records: &[b"A", b"B"],
        fails: &[2, 3, 4, 5, 6, 7],
        calls: &[
            Call::Read(ReadAnswer::Rec(1), b"A..."),
            Call::Read(ReadAnswer::Failed, b"...."),
            Call::Write(b"C", UnitAnswer::Failed),
            Call::Rewind(UnitAnswer::Failed),
            Call::Backspace(UnitAnswer::Failed),
            Call::Endfile(UnitAnswer::Failed),
            Call::Finish(UnitAnswer::Failed),
            Call::Read(ReadAnswer::Rec(1), b"B..."),
        ],
        left: &[b"A", b"B"],
    },
    // writes after a first one go behind it
    Script {
        records: &[],
        fails: &[2],
        calls: &[
            Call::Write(b"ONE", UnitAnswer::Ok),
            Call::Write(b"LOST", UnitAnswer::Failed),
            Call::Write(b"TWO", UnitAnswer::Ok),
            Call::Rewind(UnitAnswer::Ok),
            Call::Read(ReadAnswer::Rec(3), b"ONE."),
        ],
        left: &[b"ONE", b"TWO"],
    },
];

#[test]
fn tapes_answer_calls_in_order(rt: HostRuntime) -> Result<(), Fail> {
    for (row, script) in SCRIPTS.iter().enumerate() {
        let mut tape = tape(rt.alloc(), script.records, script.fails)?;
        for (at, call) in script.calls.iter().enumerate() {
            assert!(rt; call.answers(&mut tape)?, "row {row}, call {at}");
        }
        assert!(rt; holds(&tape, script.left), "row {row}");
    }
    Ok(())
}

/// Whether a unit is there and tells just these records.
fn gives<U: Unit>(unit: Option<U>, want: &[&[u8]]) -> bool {
    match unit {
        Some(unit) => holds(&unit, want),
        None => false,
    }
}

#[test]
fn boxes_come_back_as_they_are(rt: HostRuntime) -> Result<(), Fail> {
    let alloc = rt.alloc();
    let mut units = Units::new();
    let a: Box<dyn Unit> = Box::new(alloc, tape(alloc, &[b"A"], &[])?)?;
    let b: Box<dyn Unit> = Box::new(alloc, tape(alloc, &[b"B"], &[])?)?;
    assert!(rt; units.attach(6, a).is_none());
    assert!(rt; gives(units.attach(6, b), &[b"A"]));
    assert!(rt; units.detach(7).is_none() && units.detach(16).is_none());
    assert!(rt; gives(units.detach(6), &[b"B"]));
    assert!(rt; units.detach(6).is_none());
    Ok(())
}

/// A call of a numbered unit, with its answer, and with what a read leaves of four dots.
#[derive(Clone, Copy)]
enum Numbered {
    Read(u32, UnitsRead, &'static [u8; 4]),
    Write(u32, &'static [u8], &'static [u8], UnitsAnswer),
    Rewind(u32, UnitsAnswer),
    Backspace(u32, UnitsAnswer),
    Endfile(u32, UnitsAnswer),
}

impl Numbered {
    /// Makes the call, and says whether it answers so, or that memory ran out.
    fn answers<U: UnitSet>(self, alloc: Global, units: &mut U) -> Result<bool, AllocError> {
        Ok(match self {
            Numbered::Read(n, answer, left) => {
                let mut into = *b"....";
                units.read(n, &mut into) == answer && into == *left
            }
            Numbered::Write(n, first, second, answer) => {
                let records = [Record::of(alloc, first)?, Record::of(alloc, second)?];
                let made = units.write_all(n, &records);
                if made == UnitsAnswer::Memory {
                    return Err(AllocError);
                }
                made == answer
            }
            Numbered::Rewind(n, answer) => units.rewind(n) == answer,
            Numbered::Backspace(n, answer) => units.backspace(n) == answer,
            Numbered::Endfile(n, answer) => units.endfile(n) == answer,
        })
    }
}

/// Calls of units 1 and 15, of which each is a tape of `A` and `B` whose fourth call fails.
const NUMBERED: [Numbered; 14] = [
    Numbered::Read(15, UnitsRead::Rec(1), b"A..."),
    Numbered::Rewind(15, UnitsAnswer::Ok),
    Numbered::Write(15, b"C", b"LOST", UnitsAnswer::Failed),
    Numbered::Backspace(15, UnitsAnswer::Ok),
    Numbered::Read(15, UnitsRead::Rec(1), b"C..."),
    Numbered::Read(15, UnitsRead::End, b"...."),
    Numbered::Write(15, b"D", b"E", UnitsAnswer::Ok),
    Numbered::Backspace(15, UnitsAnswer::Ok),
    Numbered::Endfile(15, UnitsAnswer::Ok),
    Numbered::Read(0, UnitsRead::Absent, b"...."),
    Numbered::Write(2, b"C", b"D", UnitsAnswer::Absent),
    Numbered::Rewind(14, UnitsAnswer::Absent),
    Numbered::Backspace(16, UnitsAnswer::Absent),
    Numbered::Endfile(u32::MAX, UnitsAnswer::Absent),
];

#[test]
fn a_call_on_one_unit_leaves_the_others(rt: HostRuntime) -> Result<(), Fail> {
    let alloc = rt.alloc();
    let mut units = Units::new();
    let first: Box<dyn Unit> = Box::new(alloc, tape(alloc, &[b"A", b"B"], &[4])?)?;
    let last: Box<dyn Unit> = Box::new(alloc, tape(alloc, &[b"A", b"B"], &[4])?)?;
    assert!(rt; units.attach(1, first).is_none() && units.attach(15, last).is_none());
    for (at, call) in NUMBERED.iter().enumerate() {
        assert!(rt; call.answers(alloc, &mut units)?, "call {at}");
    }
    assert!(rt; gives(units.detach(15), &[b"C", b"D"]));
    assert!(rt; gives(units.detach(1), &[b"A", b"B"]));
    Ok(())
}

/// A unit that tells nothing, does nothing, and counts its finishes.
#[derive(Drop)]
struct Mute {
    finishes: Rc<Cell<u32>>,
    fails: bool,
    faults: u64,
}

impl Unit for Mute {
    ghost tape = { λ _. None };

    ghost faults = { λ u. u.faults };

    fn read(&mut self, _into: &mut [u8]) -> ReadAnswer {
        ReadAnswer::End
    }

    fn write(&mut self, _bytes: &[u8]) -> UnitAnswer {
        UnitAnswer::Memory
    }

    fn rewind(&mut self) -> UnitAnswer {
        UnitAnswer::Ok
    }

    fn backspace(&mut self) -> UnitAnswer {
        UnitAnswer::Ok
    }

    fn endfile(&mut self) -> UnitAnswer {
        UnitAnswer::Ok
    }

    fn finish(&mut self) -> UnitAnswer {
        self.finishes.set(self.finishes.get().saturating_add(1));
        if self.fails {
            self.faults = self.faults.saturating_add(1);
            return UnitAnswer::Failed;
        }
        UnitAnswer::Ok
    }

    fn known(&self) -> Option<&[Record]> {
        None
    }
}

/// A tape that counts its finishes.
#[derive(Drop)]
struct Watched {
    tape: Tape,
    finishes: Rc<Cell<u32>>,
}

impl Unit for Watched {
    ghost tape = { λ u. ⟦<Tape as Unit>⟧.tape u.tape };

    ghost faults = { λ u. ⟦<Tape as Unit>⟧.faults u.tape };

    fn read(&mut self, into: &mut [u8]) -> ReadAnswer {
        self.tape.read(into)
    }

    fn write(&mut self, bytes: &[u8]) -> UnitAnswer {
        self.tape.write(bytes)
    }

    fn rewind(&mut self) -> UnitAnswer {
        self.tape.rewind()
    }

    fn backspace(&mut self) -> UnitAnswer {
        self.tape.backspace()
    }

    fn endfile(&mut self) -> UnitAnswer {
        self.tape.endfile()
    }

    fn finish(&mut self) -> UnitAnswer {
        self.finishes.set(self.finishes.get().saturating_add(1));
        self.tape.finish()
    }

    fn known(&self) -> Option<&[Record]> {
        self.tape.known()
    }
}

/// How many finishes fail at `finish_all` and at `close_all`, and how often the second and the
/// third unit were finished: units 1, 2 and 3 are a tape whose finishes fail or not, a mute unit
/// and a watched tape.
fn finish_twice(alloc: Global, fails: [bool; 3]) -> Result<[u32; 4], AllocError> {
    let [first, second, third] = fails;
    let numbers = |fails: bool| if fails { [1u64, 2] } else { [3, 4] };
    let muted = Rc::new(alloc, Cell::new(0u32))?;
    let watched = Rc::new(alloc, Cell::new(0u32))?;
    let mute = Mute {
        finishes: Rc::clone(&muted)?,
        fails: second,
        faults: 0,
    };
    let watch = Watched {
        tape: tape(alloc, &[], &numbers(third))?,
        finishes: Rc::clone(&watched)?,
    };
    let mut units = Units::new();
    let _ = units.attach(1, Box::new(alloc, tape(alloc, &[], &numbers(first))?)?);
    let _ = units.attach(2, Box::new(alloc, mute)?);
    let _ = units.attach(3, Box::new(alloc, watch)?);
    let finished = units.finish_all();
    let closed = units.close_all();
    Ok([finished, closed, muted.get(), watched.get()])
}

#[test]
fn finishes_go_on_past_one_that_fails(rt: HostRuntime) -> Result<(), Fail> {
    for (fails, failed) in [
        ([true, false, false], 1),
        ([false, true, false], 1),
        ([false, false, true], 1),
        ([false, false, false], 0),
        ([true, true, true], 3),
    ] {
        let answers = finish_twice(rt.alloc(), fails)?;
        assert!(rt; answers == [failed, failed, 2, 2], "of {failed}");
    }
    Ok(())
}
