// Programs over a unit that doesn't tell its tape.
ghost use Rattle.std.specs.Prelude.{◌≡◌, ◌≢◌, ◌≤◌, None};
ghost use Rattle.sil_base.specs.Causes.{Rose};

use crate::printing::HELLO;
use rows_go::go::{files, owned};
use sil_base::{MemorySink, Record};
use sil_cli::sil_main;
use std::alloc::Global;
use std::cell::Cell;
use std::rc::Rc;
use std::test::Fail;
use unit_io::{ReadAnswer, Unit, UnitAnswer, Units};

/// A unit that tells nothing: it counts its writes and its finishes, and fails from one call on.
#[derive(Drop)]
struct Silent {
    writes: Rc<Cell<u32>>,
    finishes: Rc<Cell<u32>>,
    fails: bool,
    faults: u64,
}

impl Silent {
    /// The answer of a call.
    fn answer(&mut self) -> UnitAnswer
        ensures count { self.old.faults ≤ self.new.faults }
        ensures failed { result ≡ UnitAnswer.Failed → Rose self.old.faults self.new.faults }
        ensures memory { result ≢ UnitAnswer.Memory }
    {
        if self.fails {
            self.faults = self.faults.saturating_add(1);
            return UnitAnswer::Failed;
        }
        UnitAnswer::Ok
    }
}

impl Unit for Silent {
    ghost tape = { λ _. None };

    ghost faults = { λ u. u.faults };

    fn read(&mut self, _into: &mut [u8]) -> ReadAnswer {
        ReadAnswer::End
    }

    fn write(&mut self, _bytes: &[u8]) -> UnitAnswer {
        self.writes.set(self.writes.get().saturating_add(1));
        self.answer()
    }

    fn rewind(&mut self) -> UnitAnswer {
        self.answer()
    }

    fn backspace(&mut self) -> UnitAnswer {
        self.answer()
    }

    fn endfile(&mut self) -> UnitAnswer {
        self.answer()
    }

    fn finish(&mut self) -> UnitAnswer {
        self.finishes.set(self.finishes.get().saturating_add(1));
        UnitAnswer::Ok
    }

    fn known(&self) -> Option<&[Record]> {
        None
    }
}

/// What a program moves.
const MOVES: &[u8] = b" REWIND U\n BKSPCE U\n ENFILE U\n ENDEX Z\nU DESCR UNITO\nZ DESCR\n END\n";

const GO: &[&str] = &["go", "SRC", "TABLES", "PARAMS", "IMAGE", "5"];

const SIM: &[&str] = &["sim", "SRC", "TABLES", "PARAMS", "5"];

/// A source, whether unit 6 fails, the status, the notes, and the writes and the finishes of the unit.
type Row = (&'static [u8], bool, u8, &'static [u8], u32, u32);

static ROWS: [Row; 4] = [
    (HELLO, false, 0, b"exit 0\n", 1, 1),
    (HELLO, true, 11, b"unit fault 0 6\n", 1, 1),
    (MOVES, false, 0, b"exit 0\n", 0, 1),
    (MOVES, true, 11, b"unit fault 0 6\n", 0, 1),
];

/// Whether these words on a row's source answer so.
fn is_so(alloc: Global, words: &[&str], row: &Row) -> Result<bool, Fail> {
    let (source, fails, code, text, written, finished) = *row;
    let words = owned(alloc, words)?;
    let writes = Rc::new(alloc, Cell::new(0u32))?;
    let finishes = Rc::new(alloc, Cell::new(0u32))?;
    let unit = Silent {
        writes: Rc::clone(&writes)?,
        finishes: Rc::clone(&finishes)?,
        fails,
        faults: 0,
    };
    let mut store = files(alloc, source, &[])?;
    let mut notes = MemorySink::new(alloc, Vec::new(alloc));
    let mut units = Units::new();
    let _ = units.attach(6, Box::new(alloc, unit)?);
    let status = sil_main(alloc, &words, &mut store, &mut units, &mut notes);
    Ok(
        status.code == code
            && notes.bytes() == text
            && writes.get() == written
            && finishes.get() == finished,
    )
}

#[test]
fn a_unit_that_tells_nothing_is_called_all_the_same(rt: HostRuntime) -> Result<(), Fail> {
    for row in &ROWS {
        assert!(rt; is_so(rt.alloc(), GO, row)?);
        assert!(rt; is_so(rt.alloc(), SIM, row)?);
    }
    Ok(())
}
