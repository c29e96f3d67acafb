// Commands that tell lines, over a store, a sink and units some of whose calls fail.
use crate::printing::{HELLO, TRAPPED, holds, tape};
use rows_go::go::{call, files, owned};
use sil_base::{MemorySink, MemoryStore};
use sil_cli::sil_main;
use std::alloc::{AllocError, Global};
use std::test::Fail;
use unit_io::Units;

/// A source whose image is there, words, the calls on the store, of puts and on unit 6 that fail, the
/// status, the notes, and the records of unit 6 afterwards.
struct Row {
    source: &'static [u8],
    words: &'static [&'static str],
    store: &'static [u64],
    sink: &'static [u64],
    unit: &'static [u64],
    code: u8,
    notes: &'static [u8],
    printed: &'static [&'static [u8]],
}

/// A row with calls on the store, of puts and on unit 6 that fail.
macro_rules! fails {
    ($source:expr, $words:expr, $store:expr, $sink:expr, $unit:expr, $code:expr, $notes:expr, $printed:expr) => {
        Row {
            source: $source,
            words: $words,
            store: $store,
            sink: $sink,
            unit: $unit,
            code: $code,
            notes: $notes,
            printed: $printed,
        }
    };
}

const RUN: &[&str] = &["run", "IMAGE", "5"];

const TRACE: &[&str] = &["trace", "IMAGE", "5"];

const LIST: &[&str] = &["list", "IMAGE"];

const GO: &[&str] = &["go", "SRC", "TABLES", "PARAMS", "IMAGE", "5"];

const SIM: &[&str] = &["sim", "SRC", "TABLES", "PARAMS", "5"];

const DEMO: &[&str] = &["demo", "6", "0"];

const SUM: &[u8] = b"                1375";

static ROWS: [Row; 21] = [
    // the store fails
    fails!(
        HELLO,
        TRACE,
        &[1],
        &[],
        &[],
        10,
        b"store fault IMAGE\n",
        &[]
    ),
    fails!(HELLO, LIST, &[1], &[], &[], 10, b"store fault IMAGE\n", &[]),
    fails!(HELLO, GO, &[4], &[], &[], 10, b"store fault IMAGE\n", &[]),
    fails!(HELLO, GO, &[5], &[], &[], 10, b"store fault IMAGE\n", &[]),
    fails!(
        HELLO,
        DEMO,
        &[1],
        &[],
        &[],
        0,
        b"demo 6 statements 2298 bytes\nexit 0\n",
        &[SUM]
    ),
    // puts fail: the work goes on, and nothing more is put
    fails!(HELLO, TRACE, &[], &[1], &[], 14, b"", &[b" HELLO"]),
    fails!(
        HELLO,
        TRACE,
        &[],
        &[2],
        &[],
        14,
        b"0 1 OUTPUT\n",
        &[b" HELLO"]
    ),
    fails!(
        HELLO,
        TRACE,
        &[],
        &[3],
        &[],
        14,
        b"0 1 OUTPUT\n1 2 ENDEX\n",
        &[b" HELLO"]
    ),
    fails!(HELLO, GO, &[], &[1], &[], 14, b"", &[b" HELLO"]),
    fails!(HELLO, LIST, &[], &[1], &[], 14, b"", &[]),
    fails!(
        HELLO,
        LIST,
        &[],
        &[2],
        &[],
        14,
        b"0 1 OUTPUT 66452 47\n",
        &[]
    ),
    fails!(HELLO, DEMO, &[], &[1], &[], 14, b"", &[SUM]),
    fails!(
        HELLO,
        DEMO,
        &[],
        &[2],
        &[],
        14,
        b"demo 6 statements 2298 bytes\n",
        &[SUM]
    ),
    // calls on the unit fail, its finish last
    fails!(
        HELLO,
        TRACE,
        &[],
        &[],
        &[1],
        11,
        b"0 1 OUTPUT\nunit fault 0 6\n",
        &[]
    ),
    fails!(
        HELLO,
        TRACE,
        &[],
        &[],
        &[2],
        11,
        b"0 1 OUTPUT\n1 2 ENDEX\nexit 0\nfinish fault\n",
        &[b" HELLO"]
    ),
    fails!(HELLO, RUN, &[], &[], &[1], 11, b"unit fault 0 6\n", &[]),
    fails!(HELLO, SIM, &[], &[], &[1], 11, b"unit fault 0 6\n", &[]),
    fails!(
        HELLO,
        DEMO,
        &[],
        &[],
        &[1],
        11,
        b"demo 6 statements 2298 bytes\nunit fault 6 6\n",
        &[]
    ),
    fails!(
        HELLO,
        DEMO,
        &[],
        &[],
        &[2],
        11,
        b"demo 6 statements 2298 bytes\nexit 0\nfinish fault\n",
        &[SUM]
    ),
    // a finish that fails replaces a trap's status, and stands before a put that fails
    fails!(
        TRAPPED,
        GO,
        &[],
        &[],
        &[2],
        11,
        b"trap 1\nfinish fault\n",
        &[b" HELLO"]
    ),
    fails!(HELLO, GO, &[], &[2], &[2], 11, b"exit 0\n", &[b" HELLO"]),
];

/// A store of a source and its image, some of whose calls fail.
fn store_of(alloc: Global, source: &[u8], fails: &[u64]) -> Result<MemoryStore, AllocError> {
    let words = ["install", "SRC", "TABLES", "PARAMS", "IMAGE"];
    let installed = call(alloc, files(alloc, source, &[])?, &[], &words)?;
    let mut store = files(alloc, source, fails)?;
    if let Some(image) = &installed.image {
        store.set("IMAGE", image)?;
    }
    Ok(store)
}

/// Whether a row's words answer so.
fn is_so(alloc: Global, row: &Row) -> Result<bool, AllocError> {
    let words = owned(alloc, row.words)?;
    let mut store = store_of(alloc, row.source, row.store)?;
    let mut notes = MemorySink::new(alloc, Vec::from_slice(alloc, row.sink)?);
    let mut units = Units::new();
    let _ = units.attach(6, Box::new(alloc, tape(alloc, &[], row.unit)?)?);
    let status = sil_main(alloc, &words, &mut store, &mut units, &mut notes);
    let printed = holds(units.detach(6), row.printed);
    Ok(status.code == row.code && notes.bytes() == row.notes && printed)
}

#[test]
fn lines_are_told_as_they_come(rt: HostRuntime) -> Result<(), Fail> {
    for row in &ROWS {
        assert!(rt; is_so(rt.alloc(), row)?);
    }
    Ok(())
}
