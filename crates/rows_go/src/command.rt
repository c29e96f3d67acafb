// The command, and the cause of each status.
use crate::go::{Answer, call, files, go};
use image_runs::run_image;
use rv_emulate::CpuEnd;
use std::alloc::{AllocError, Global};
use std::process::Abort;
use std::test::Fail;
use unit_io::Units;

const ENDS_BY_ZERO: &[u8] = b" ENDEX Z\nZ DESCR\n END\n";

/// Two cards with a fault each, and no END.
const FAULTY: &[u8] = b"X! MOVD A,B\n MOVE A\n";

/// A source of three copies, whose lines end in a CR, in a blank line, and in nothing.
static COPIES: [(&str, &[u8]); 4] = [
    ("SRC", b" COPY A\n COPY 'B'\n COPY C\n"),
    ("A", b"* A SUM\r\n MOVD X,ONE\n INCRA X,2"),
    ("B", b" TITLE (\n ENDEX X\n\n"),
    ("C", b"X\tDESCR\nONE DESCR\t1\n END\n MOVE\n"),
];

/// A source, the calls on the store and the puts of notes that fail, the status and the notes. Each fault of a source
/// is a put of its own.
static FAILURES: [(&[u8], &[u64], &[u64], u8, &[u8]); 8] = [
    (ENDS_BY_ZERO, &[1], &[], 10, b"store fault PARAMS\n"),
    (ENDS_BY_ZERO, &[2], &[], 10, b"store fault TABLES\n"),
    (ENDS_BY_ZERO, &[3], &[], 10, b"store fault SRC\n"),
    (ENDS_BY_ZERO, &[4], &[], 10, b"store fault IMAGE\n"),
    (ENDS_BY_ZERO, &[], &[1], 14, b""),
    (FAULTY, &[], &[1], 14, b""),
    (FAULTY, &[], &[2], 14, b"source 1 C5\n"),
    (FAULTY, &[], &[3], 14, b"source 1 C5\nsource 2 C3\n"),
];

/// Lines, how often they stand at the start of a source, its other lines, the bound on steps, the status and the notes.
static LONG: [(&[u8], u32, &[u8], &str, u8, &[u8]); 5] = [
    (
        b" INCRA X,999999999\n",
        998,
        b"X DESCR\n END\n",
        "998",
        7,
        b"undefined 998\n",
    ),
    (
        b" ENDEX Z\n",
        16_384,
        b"Z DESCR\n END\n",
        "5",
        0,
        b"exit 0\n",
    ),
    (
        b" ENDEX Z\n",
        16_385,
        b"Z DESCR\n END\n",
        "5",
        3,
        b"source 16387 V4\n",
    ),
    (b"", 0, b"A ARRAY 1048410\n END\n", "5", 7, b"undefined 0\n"),
    (b"", 0, b"A ARRAY 1048411\n END\n", "5", 3, b"source 2 V4\n"),
];

/// A file that is too long, and the notes.
static TOO_LONG: [(&str, &[u8]); 3] = [
    ("SRC", b"too long SRC\n"),
    ("TABLES", b"too long TABLES\n"),
    ("PARAMS", b"too long PARAMS\n"),
];

/// Whether an answer has this status and these notes, and an image exactly after the statuses of runs.
fn expect(rt: &impl Abort, answer: &Answer, code: u8, text: &[u8]) {
    assert_eq!(rt; answer.code, code);
    assert!(rt; answer.text.as_slice() == text);
    assert_eq!(rt; answer.image.is_some(), matches!(code, 0 | 1 | 6 | 7 | 8));
}

fn repeated(alloc: Global, line: &[u8], count: u32, last: &[u8]) -> Result<Vec<u8>, AllocError> {
    let mut source = Vec::new(alloc);
    for _ in 0..count {
        source.extend_from_slice(line)?;
    }
    source.extend_from_slice(last)?;
    Ok(source)
}

#[test]
fn long_sources_are_installed_up_to_their_limits(rt: HostRuntime) -> Result<(), Fail> {
    for &(line, count, last, steps, code, text) in &LONG {
        let source = repeated(rt.alloc(), line, count, last)?;
        let answer = go(rt.alloc(), files(rt.alloc(), &source, &[])?, steps)?;
        expect(&rt, &answer, code, text);
    }
    Ok(())
}

#[test]
fn lines_end_in_any_way(rt: HostRuntime) -> Result<(), Fail> {
    let alloc = rt.alloc();
    let mut store = files(alloc, b"", &[])?;
    for (name, bytes) in &COPIES {
        store.set(name, bytes)?;
    }
    expect(&rt, &go(alloc, store, "5")?, 1, b"exit 1\n");
    Ok(())
}

#[test]
fn no_words_are_refused(rt: HostRuntime) -> Result<(), Fail> {
    let answer = call(rt.alloc(), files(rt.alloc(), b"", &[])?, &[], &[])?;
    expect(&rt, &answer, 2, b"words\n");
    Ok(())
}

#[test]
fn faults_of_files_and_notes_show(rt: HostRuntime) -> Result<(), Fail> {
    let alloc = rt.alloc();
    let words = ["go", "SRC", "TABLES", "PARAMS", "IMAGE", "5"];
    for &(source, store_fails, sink_fails, code, text) in &FAILURES {
        let answer = call(
            alloc,
            files(alloc, source, store_fails)?,
            sink_fails,
            &words,
        )?;
        assert_eq!(rt; answer.code, code);
        assert!(rt; answer.text.as_slice() == text);
        let saved = source == ENDS_BY_ZERO && store_fails.is_empty();
        assert_eq!(rt; answer.image.is_some(), saved);
    }
    let long = vec![in alloc; b' '; 2_097_153]?;
    for &(name, text) in &TOO_LONG {
        let mut store = files(alloc, ENDS_BY_ZERO, &[])?;
        store.set(name, &long)?;
        expect(&rt, &go(alloc, store, "5")?, 15, text);
    }
    Ok(())
}

/// The first code word stands after 152 bytes and the entry of the one statement.
#[test]
fn the_bytes_of_the_image_are_run(rt: HostRuntime) -> Result<(), Fail> {
    let alloc = rt.alloc();
    let answer = go(alloc, files(alloc, ENDS_BY_ZERO, &[])?, "5")?;
    let mut image = answer.image.unwrap_or(Vec::new(alloc));
    let mut units = Units::new();
    let end = run_image(alloc, &image, 5, &mut units);
    assert!(rt; matches!(end, Ok(CpuEnd::Exit(0))));
    for at in 168..172 {
        if let Some(byte) = image.get_mut(at) {
            *byte = 0;
        }
    }
    let end = run_image(alloc, &image, 5, &mut units);
    assert!(rt; matches!(end, Ok(CpuEnd::Illegal(65536))));
    Ok(())
}
