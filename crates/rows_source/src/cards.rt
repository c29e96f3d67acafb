// Cards, and the faults of reading them.
use crate::texts::text_of;
use sil_base::{MemoryStore, decimal};
use sil_cards::{Card, CardStop, read_cards};
use std::alloc::{AllocError, Global};
use std::test::Fail;

/// Sources of one file.
static SOURCES: [(&[u8], &[u8]); 6] = [
    (b" END\n", b"1: END |"),
    (b" END", b"1: END |"),
    (
        b"* MOVE\n\n \t\nA\tMOVD  X,Y rest\n TITLE  'X\nB MOVD '' '',Z\tx\n END\n",
        b"4:A MOVD X,Y|6:B MOVD ''|7: END |",
    ),
    (
        b"*\xff\x00\x80\r\nA MOVD X,Y\r\n END\r\n",
        b"2:A MOVD X,Y|3: END |",
    ),
    (
        b" MOVD 'A B C',D comment\n END all of it\n MOVE\n",
        b"1: MOVD 'A B C',D|2: END all|",
    ),
    (
        b" MOVD A\r,B\n\x7f\nA\n MOVD (\n END\n",
        b"1 C2;2 C2;3 C3;4 C4;",
    ),
];

/// The files, the calls on the store that fail, and the cards of the file S.
static COPIES: [(&[(&str, &[u8])], &[u64], &[u8]); 5] = [
    (&[("S", b" COPY S\n END\n")], &[], b"9 C6;"),
    (
        &[("S", b" MOVD A,B\n*\nC MOVD C,D\n*\n END\n")],
        &[],
        b"1: MOVD A,B|3:C MOVD C,D|5: END |",
    ),
    (&SPLIT, &[], b"1: MOVD A,B|3:C MOVD C,D|5: END |"),
    (&SPLIT, &[3], b"failed U "),
    (&SPLIT, &[1], b"failed S"),
];

const SPLIT: [(&str, &[u8]); 3] = [
    ("S", b" MOVD A,B\n COPY T\n MOVE\n"),
    ("T", b"C MOVD C,D\n COPY 'U '\n"),
    ("U ", b" END"),
];

/// A byte, how often it stands at the start of the source, what follows it, and the cards. The file HALF has
/// 1,048,576 bytes, all in a comment.
static LIMITS: [(&[u8], u32, &[u8], &[u8]); 7] = [
    (b" ", 250, b"MOVD A\n END\n", b"1: MOVD A|2: END |"),
    (b" ", 251, b"MOVD A\n END\n", b"1 C1;"),
    (b"*\n", 39_999, b" END\n", b"40000: END |"),
    (b"*\n", 40_001, b" END\n", b"40001 C7;"),
    (b"*", 1_048_559, b"\n COPY HALF\n END\n", b"4: END |"),
    (b"*", 1_048_560, b"\n COPY HALF\n END\n", b"4 C7;"),
    (b"*", 2_097_153, b"", b"too long S"),
];

fn put(out: &mut Vec<u8>, bytes: &[u8], end: &[u8]) -> Result<(), AllocError> {
    out.extend_from_slice(bytes)?;
    out.extend_from_slice(end)
}

fn show_card(out: &mut Vec<u8>, card: &Card) -> Result<(), AllocError> {
    decimal(out, i128::from(card.number()))?;
    put(out, b"", b":")?;
    put(out, card.label(), b" ")?;
    put(out, card.operation(), b" ")?;
    put(out, card.operands(), b"|")
}

fn show_stop(alloc: Global, stop: &CardStop) -> Result<Vec<u8>, AllocError> {
    let mut out = Vec::new(alloc);
    match stop {
        CardStop::Faults(faults) => out = text_of(alloc, faults.items())?,
        CardStop::Missing(name) => put(&mut out, b"missing ", name.bytes())?,
        CardStop::TooLong(name) => put(&mut out, b"too long ", name.bytes())?,
        CardStop::Failed(name) => put(&mut out, b"failed ", name.bytes())?,
        CardStop::Memory => put(&mut out, b"memory", b"")?,
    }
    Ok(out)
}

/// The cards of the source S among these files, or why there are none, as a text.
fn shown(alloc: Global, files: &[(&str, &[u8])], fails: &[u64]) -> Result<Vec<u8>, AllocError> {
    let mut store = MemoryStore::new(alloc, Vec::from_slice(alloc, fails)?);
    for (name, bytes) in files {
        store.set(name, bytes)?;
    }
    let mut out = Vec::new(alloc);
    match read_cards(alloc, &mut store, "S") {
        Ok(cards) => {
            for card in &cards {
                show_card(&mut out, card)?;
            }
        }
        Err(stop) => out = show_stop(alloc, &stop)?,
    }
    Ok(out)
}

fn repeated(alloc: Global, text: &[u8], n: u32, last: &[u8]) -> Result<Vec<u8>, AllocError> {
    let mut out = Vec::new(alloc);
    for _ in 0..n {
        out.extend_from_slice(text)?;
    }
    out.extend_from_slice(last)?;
    Ok(out)
}

#[test]
fn sources_have_their_cards_or_faults(rt: HostRuntime) -> Result<(), Fail> {
    for &(source, expected) in &SOURCES {
        assert!(rt; shown(rt.alloc(), &[("S", source)], &[])?.as_slice() == expected);
    }
    for &(files, fails, expected) in &COPIES {
        assert!(rt; shown(rt.alloc(), files, fails)?.as_slice() == expected);
    }
    Ok(())
}

#[test]
fn cards_and_bytes_have_their_limits(rt: HostRuntime) -> Result<(), Fail> {
    let alloc = rt.alloc();
    let half = repeated(alloc, b"*", 1_048_576, b"")?;
    for &(text, count, last, expected) in &LIMITS {
        let source = repeated(alloc, text, count, last)?;
        let files = [("S", source.as_slice()), ("HALF", half.as_slice())];
        assert!(rt;
            shown(alloc, &files, &[])?.as_slice() == expected,
            "{count}"
        );
    }
    Ok(())
}
