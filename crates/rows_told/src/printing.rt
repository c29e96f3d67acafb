// What programs print on unit 6.
use rows_go::go::{files, owned};
use sil_base::{MemorySink, Record};
use sil_cli::sil_main;
use std::alloc::{AllocError, Global};
use std::test::Fail;
use unit_io::{Tape, Unit, UnitAnswer, Units};

/// A source, the records of unit 6 before the run and the numbers of its calls that fail, the number
/// of calls on unit 7, the last of which is its finish, the status, the notes, and the records of
/// unit 6 afterwards.
struct Row {
    source: &'static [u8],
    before: &'static [&'static [u8]],
    fails: &'static [u64],
    others: u64,
    code: u8,
    notes: &'static [u8],
    after: &'static [&'static [u8]],
}

pub const HELLO: &[u8] =
    b" OUTPUT U,FMT\n ENDEX Z\nU DESCR UNITO\nZ DESCR\nFMT FORMAT '(6H HELLO)'\n END\n";

/// A source that ends by a trap once it has printed.
pub const TRAPPED: &[u8] =
    b" OUTPUT U,FMT\n ADREAL Z,Z,Z\nU DESCR UNITO\nZ DESCR\nFMT FORMAT '(6H HELLO)'\n END\n";

/// A row of a source over a unit with some records, of which some calls fail.
macro_rules! moves {
    ($source:expr, $before:expr, $fails:expr, $others:expr, $code:expr, $notes:expr, $after:expr) => {
        Row {
            source: $source,
            before: $before,
            fails: $fails,
            others: $others,
            code: $code,
            notes: $notes,
            after: $after,
        }
    };
}

/// A source that moves unit 7 and prints on unit 6.
const MOVES_OTHER: &[u8] =
    b" REWIND P\n OUTPUT U,FMT\n ENDEX Z\nP DESCR UNITP\nU DESCR UNITO\nZ DESCR\nFMT FORMAT '(6H HELLO)'\n END\n";

static ROWS: [Row; 8] = [
    // unit 7 is finished; it is moved and finished
    moves!(HELLO, &[], &[], 1, 0, b"exit 0\n", &[b" HELLO"]),
    moves!(MOVES_OTHER, &[], &[], 2, 0, b"exit 0\n", &[b" HELLO"]),
    // the write fails; the finish fails
    moves!(HELLO, &[], &[1], 1, 11, b"unit fault 0 6\n", &[]),
    moves!(
        HELLO,
        &[],
        &[2],
        1,
        11,
        b"exit 0\nfinish fault\n",
        &[b" HELLO"]
    ),
    // the second of two records fails
    moves!(
        b" OUTPUT U,F,(X,Y)\n ENDEX Z\nX DESCR 1\nY DESCR 2\nZ DESCR\nU DESCR UNITO\nF FORMAT '(I3)'\n END\n",
        &[],
        &[2],
        1,
        11,
        b"unit fault 0 6\n",
        &[b"  1"]
    ),
    // moves
    moves!(
        b" REWIND U\n ENDEX Z\nZ DESCR\nU DESCR UNITO\n END\n",
        &[],
        &[1],
        1,
        11,
        b"unit fault 0 6\n",
        &[]
    ),
    moves!(
        b" REWIND U\n OUTPUT U,F\n ENDEX Z\nZ DESCR\nU DESCR UNITO\nF FORMAT '(1HC)'\n END\n",
        &[b"A", b"B"],
        &[],
        1,
        0,
        b"exit 0\n",
        &[b"C"]
    ),
    moves!(
        b" ENFILE U\n ENDEX Z\nZ DESCR\nU DESCR UNITO\n END\n",
        &[b"A", b"B"],
        &[],
        1,
        0,
        b"exit 0\n",
        &[]
    ),
];

/// A tape of these records, some of whose calls fail.
pub fn tape(alloc: Global, records: &[&[u8]], fails: &[u64]) -> Result<Tape, AllocError> {
    let mut all = Vec::new(alloc);
    for bytes in records {
        all.push(Record::of(alloc, bytes)?)?;
    }
    Ok(Tape::new(alloc, all, Vec::from_slice(alloc, fails)?))
}

/// Whether a unit tells just these records.
pub fn holds(unit: Option<Box<dyn Unit>>, want: &[&[u8]]) -> bool {
    let Some(unit) = unit else {
        return false;
    };
    let Some(records) = unit.known() else {
        return false;
    };
    records.len() == want.len()
        && records
            .iter()
            .zip(want)
            .all(|(record, bytes)| record.bytes() == *bytes)
}

/// Whether a unit tells no records, and its next call fails.
fn fails_next(unit: Option<Box<dyn Unit>>) -> bool {
    let Some(mut unit) = unit else {
        return false;
    };
    let empty = unit.known().is_some_and(|records| records.is_empty());
    empty && unit.finish() == UnitAnswer::Failed
}

/// Whether `go` on a row's source answers so. Of unit 7 the first call fails that `go` doesn't make.
fn is_so(alloc: Global, row: &Row) -> Result<bool, AllocError> {
    let words = owned(alloc, &["go", "SRC", "TABLES", "PARAMS", "IMAGE", "100"])?;
    let mut store = files(alloc, row.source, &[])?;
    let mut notes = MemorySink::new(alloc, Vec::new(alloc));
    let mut units = Units::new();
    let _ = units.attach(6, Box::new(alloc, tape(alloc, row.before, row.fails)?)?);
    let uncalled = row.others.saturating_add(1);
    let _ = units.attach(7, Box::new(alloc, tape(alloc, &[], &[uncalled])?)?);
    let status = sil_main(alloc, &words, &mut store, &mut units, &mut notes);
    let printed = holds(units.detach(6), row.after);
    let other = fails_next(units.detach(7));
    Ok(status.code == row.code && notes.bytes() == row.notes && printed && other)
}

#[test]
fn programs_print_as_the_machine(rt: HostRuntime) -> Result<(), Fail> {
    for row in &ROWS {
        assert!(rt; is_so(rt.alloc(), row)?);
    }
    Ok(())
}

/// Without unit 6 a statement that prints is undefined.
#[test]
fn absent_units_are_undefined(rt: HostRuntime) -> Result<(), Fail> {
    let alloc = rt.alloc();
    let words = owned(alloc, &["go", "SRC", "TABLES", "PARAMS", "IMAGE", "100"])?;
    let mut store = files(alloc, HELLO, &[])?;
    let mut notes = MemorySink::new(alloc, Vec::new(alloc));
    let mut units = Units::new();
    let status = sil_main(alloc, &words, &mut store, &mut units, &mut notes);
    assert!(rt; status.code == 7 && notes.bytes() == b"undefined 0\n".as_slice());
    Ok(())
}
