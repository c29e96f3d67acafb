// The order in which a check tells what is wrong with its files.
use crate::texts::text_of;
use layout_params::STANDARD_PARAMS;
use sil_base::MemoryStore;
use sil_check::{CheckStop, SourceNames, check};
use std::alloc::{AllocError, Global};
use std::slice;

/// Files.
type Files = &'static [(&'static str, &'static [u8])];

const ENDS: &[u8] = b" ENDEX Z\nZ DESCR\n END\n";

/// Files that aren't parameters and no tables.
const BAD: Files = &[("PARAMS", b"?"), ("TABLES", b"?")];

/// Legal parameters, and tables that are none.
const GOOD: Files = &[("PARAMS", STANDARD_PARAMS), ("TABLES", b"?")];

/// Legal parameters, and no tables.
const BARE: Files = &[("PARAMS", STANDARD_PARAMS), ("TABLES", b"")];

/// Files of parameters and tables, a source with the files that it copies, the loads that fail, and what is answered.
static ROWS: [(Files, Files, &[u64], &[u8]); 5] = [
    (&[], &[("SRC", b" COPY A\n")], &[1], b"failed PARAMS"),
    (BAD, &[], &[2], b"failed TABLES"),
    (BAD, &[], &[3], b"failed SRC"),
    (
        BAD,
        &[("SRC", b" COPY A\n COPY B\n"), ("A", b"")],
        &[5],
        b"failed B",
    ),
    (
        BAD,
        &[("SRC", b" COPY A\n"), ("A", b" END\n")],
        &[5],
        b"params 1 L1;",
    ),
];

/// Files that are too long, and what is answered.
static LONG: [(&[&str], &[u8]); 5] = [
    (&["PARAMS", "TABLES", "SRC", "A"], b"too long PARAMS"),
    (&["TABLES", "SRC", "A"], b"too long TABLES"),
    (&["SRC", "A"], b"too long SRC"),
    (&["A"], b"too long A"),
    (&["B"], b"params 1 L1;"),
];

/// A word, a blank and a text.
fn named(alloc: Global, word: &[u8], text: &[u8]) -> Result<Vec<u8>, AllocError> {
    let mut line = Vec::from_slice(alloc, word)?;
    line.push(b' ')?;
    line.extend_from_slice(text)?;
    Ok(line)
}

/// What is answered, as a text.
fn answer_of(alloc: Global, store: &mut MemoryStore) -> Result<Vec<u8>, AllocError> {
    let names = SourceNames::of(alloc, "SRC", "TABLES", "PARAMS")?;
    match check(alloc, store, &names) {
        Ok(checked) => {
            let count = format!(in alloc; "{}", checked.program.statements.items().len())?;
            named(alloc, count.as_bytes(), b"statements")
        }
        Err(CheckStop::Missing(name)) => named(alloc, b"missing", name.bytes()),
        Err(CheckStop::TooLong(name)) => named(alloc, b"too long", name.bytes()),
        Err(CheckStop::Failed(name)) => named(alloc, b"failed", name.bytes()),
        Err(CheckStop::Params(fault)) => {
            named(alloc, b"params", &text_of(alloc, slice::from_ref(&fault))?)
        }
        Err(CheckStop::Faults(faults)) => {
            named(alloc, b"faults", &text_of(alloc, faults.items())?)
        }
        Err(CheckStop::NotBuilt) => Vec::from_slice(alloc, b"not built"),
        Err(CheckStop::Memory) => Err(AllocError),
    }
}

/// A store with these files.
fn store_of(alloc: Global, groups: &[Files], fails: &[u64]) -> Result<MemoryStore, AllocError> {
    let mut store = MemoryStore::new(alloc, Vec::from_slice(alloc, fails)?);
    for files in groups {
        for (name, bytes) in *files {
            store.set(name, bytes)?;
        }
    }
    Ok(store)
}

#[test]
fn what_is_wrong_is_told_in_order(rt: HostRuntime) -> Result<(), AllocError> {
    let alloc = rt.alloc();
    for &(files, source, fails, expected) in &ROWS {
        let mut store = store_of(alloc, &[files, source], fails)?;
        let answer = answer_of(alloc, &mut store)?;
        assert_eq!(rt; answer.as_slice(), expected);
    }
    Ok(())
}

#[test]
fn the_first_file_that_is_too_long_is_told(rt: HostRuntime) -> Result<(), AllocError> {
    let alloc = rt.alloc();
    let long = vec![in alloc; b'?'; 2_097_153]?;
    for &(names, expected) in &LONG {
        let source: Files = &[("SRC", b" COPY A\n"), ("A", b" END\n")];
        let mut store = store_of(alloc, &[BAD, source], &[])?;
        for name in names {
            store.set(name, &long)?;
        }
        let answer = answer_of(alloc, &mut store)?;
        assert_eq!(rt; answer.as_slice(), expected);
    }
    Ok(())
}
