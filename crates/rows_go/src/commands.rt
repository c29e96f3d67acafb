// The commands beside `go`: what they answer, and the files that they leave.
use crate::go::{Answer, call, files, go};
use image_file::{Image, write_image};
use layout_params::{STANDARD_PARAMS, read_params};
use sil_base::MemoryStore;
use std::alloc::{AllocError, Global};
use std::process::Abort;
use std::test::Fail;

const EXITS: &[u8] = b" ENDEX Z\nZ DESCR\n END\n";

/// The greatest common divisor of 252 and 105, in thirteen steps.
const DIVISOR: &[u8] =
    b"LOOP ACOMP A,B,FIRST,DONE\n SUBTRT B,B,A,,LOOP\nFIRST SUBTRT A,A,B,,LOOP\nDONE AEQLC A,21,WRONG\n ENDEX ZERO\nWRONG ENDEX ONE\nA DESCR 252\nB DESCR 105\nZERO DESCR\nONE DESCR 1\n END\n";

const LOOPS: &[u8] = b"L BRANCH L\n END\n";

const TRAPS: &[u8] = b" PROC\n LINK Z,Z,Z,Z\nZ DESCR\n END\n";

const CHECK: &[&str] = &["check", "SRC", "TABLES", "PARAMS"];

const INSTALL: &[&str] = &["install", "SRC", "TABLES", "PARAMS", "IMAGE"];

/// Sources that are installed and run, the bound on steps, the status and the notes of the run.
static INSTALLED: [(&[u8], &str, u8, &[u8]); 6] = [
    (EXITS, "1", 0, b"exit 0\n"),
    (EXITS, "0", 8, b"budget\n"),
    (DIVISOR, "13", 0, b"exit 0\n"),
    (DIVISOR, "12", 8, b"budget\n"),
    (LOOPS, "7", 8, b"budget\n"),
    (TRAPS, "5", 6, b"trap 1\n"),
];

/// Where the first code word of an image of one statement stands: after 152 bytes and one entry.
const FIRST_WORD: usize = 168;

/// The words of images of no statements, from the place 65,536 on, the status and the notes of a run.
static WORDS: [(&[u32], u8, &[u8]); 16] = [
    // an endless jump
    (&[0x0000_006f], 9, b"machine fault runaway\n"),
    // call 0
    (&[0x0000_0073], 9, b"machine fault call 65536\n"),
    // EBREAK
    (&[0x0010_0073], 9, b"machine fault illegal 65536\n"),
    // jumps to 0 and to 2 modulo 4
    (&[0x0000_0067], 9, b"machine fault fetch 0\n"),
    (&[0x0020_006f], 9, b"machine fault fetch 65538\n"),
    // past the end
    (&[0x0000_0013], 9, b"machine fault fetch 65540\n"),
    // a store into the code, and a load from it
    (
        &[0x0001_02b7, 0x0002_a023],
        9,
        b"machine fault store 65540\n",
    ),
    (
        &[0x0001_02b7, 0x0002_a303],
        9,
        b"machine fault load 65540\n",
    ),
    // a misaligned load and a misaligned store, from and into the first cell
    (
        &[0x4000_02b7, 0x0012_a303],
        9,
        b"machine fault load 65540\n",
    ),
    (
        &[0x4000_02b7, 0x0002_a0a3],
        9,
        b"machine fault store 65540\n",
    ),
    // call 1 with 0 to 5
    (&[0x0010_0893, 0x0000_0073], 0, b"exit 0\n"),
    (&[0x0010_0893, 0x0010_0513, 0x0000_0073], 1, b"exit 1\n"),
    (&[0x0010_0893, 0x0020_0513, 0x0000_0073], 6, b"trap 0\n"),
    (
        &[0x0010_0893, 0x0030_0513, 0x0000_0073],
        7,
        b"undefined 0\n",
    ),
    (&[0x0010_0893, 0x0040_0513, 0x0000_0073], 8, b"budget\n"),
    (
        &[0x0010_0893, 0x0050_0513, 0x0000_0073],
        9,
        b"machine fault call 65544\n",
    ),
];

/// Words, the calls on the store that fail, the status and the notes.
static STORE_FAULTS: [(&[&str], &[u64], u8, &[u8]); 7] = [
    (CHECK, &[4], 0, b"checked 1 statements 167 cells\n"),
    (CHECK, &[3], 10, b"store fault SRC\n"),
    (INSTALL, &[4], 10, b"store fault IMAGE\n"),
    (&["run", "SRC", "5"], &[1], 10, b"store fault SRC\n"),
    (&["trace", "SRC", "5"], &[1], 10, b"store fault SRC\n"),
    (&["list", "SRC"], &[1], 10, b"store fault SRC\n"),
    (
        &["sim", "SRC", "TABLES", "PARAMS", "5"],
        &[2],
        10,
        b"store fault TABLES\n",
    ),
];

/// Whether an answer has this status and these notes.
fn expect(rt: &impl Abort, answer: &Answer, code: u8, text: &[u8]) {
    assert_eq!(rt; answer.code, code);
    assert!(rt; answer.text.as_slice() == text);
}

/// The image that `install` saves of a source, and its notes.
fn installed(alloc: Global, source: &[u8]) -> Result<(Vec<u8>, Answer), AllocError> {
    let mut answer = call(alloc, files(alloc, source, &[])?, &[], INSTALL)?;
    let image = answer.image.take().unwrap_or(Vec::new(alloc));
    Ok((image, answer))
}

/// `run IMAGE N` of these bytes.
fn run(alloc: Global, image: &[u8], steps: &str) -> Result<Answer, AllocError> {
    let mut store = MemoryStore::new(alloc, Vec::new(alloc));
    store.set("IMAGE", image)?;
    call(alloc, store, &[], &["run", "IMAGE", steps])
}

#[test]
fn where_the_store_fails_nothing_is_saved(rt: HostRuntime) -> Result<(), Fail> {
    let alloc = rt.alloc();
    for &(words, fails, code, text) in &STORE_FAULTS {
        let answer = call(alloc, files(alloc, EXITS, fails)?, &[], words)?;
        expect(&rt, &answer, code, text);
        assert!(rt; answer.image.is_none());
    }
    Ok(())
}

/// The sixth statement of the source that is made prints.
#[test]
fn a_demo_without_its_unit_is_undefined(rt: HostRuntime) -> Result<(), Fail> {
    let answer = call(
        rt.alloc(),
        files(rt.alloc(), b"", &[])?,
        &[],
        &["demo", "6", "0"],
    )?;
    expect(
        &rt,
        &answer,
        7,
        b"demo 6 statements 2298 bytes\nundefined 6\n",
    );
    assert!(rt; answer.image.is_none());
    Ok(())
}

#[test]
fn what_is_installed_is_run_as_by_go(rt: HostRuntime) -> Result<(), Fail> {
    let alloc = rt.alloc();
    for &(source, steps, code, text) in &INSTALLED {
        let (image, answer) = installed(alloc, source)?;
        let line = format!(in alloc; "installed {} bytes\n", image.len())?;
        expect(&rt, &answer, 0, line.as_bytes());
        let went = go(alloc, files(alloc, source, &[])?, steps)?;
        expect(&rt, &went, code, text);
        assert!(rt; went.image.unwrap_or(Vec::new(alloc)).as_slice() == image.as_slice());
        let ran = run(alloc, &image, steps)?;
        expect(&rt, &ran, code, text);
        assert!(rt; ran.image.unwrap_or(Vec::new(alloc)).as_slice() == image.as_slice());
    }
    Ok(())
}

#[test]
fn images_that_were_changed_are_refused_or_end_so(rt: HostRuntime) -> Result<(), Fail> {
    let alloc = rt.alloc();
    let (mut image, _) = installed(alloc, EXITS)?;
    expect(&rt, &run(alloc, b"", "5")?, 5, b"image refused I1\n");
    let cut = image.get(..image.len().saturating_sub(1)).unwrap_or(&[]);
    expect(&rt, &run(alloc, cut, "5")?, 5, b"image refused I10\n");
    image.push(0)?;
    expect(&rt, &run(alloc, &image, "5")?, 5, b"image refused I12\n");
    let _ = image.pop();
    for byte in image.iter_mut().skip(FIRST_WORD).take(4) {
        *byte = 0;
    }
    expect(
        &rt,
        &run(alloc, &image, "5")?,
        9,
        b"machine fault illegal 65536\n",
    );
    Ok(())
}

/// An image of no statements with these code words.
fn bare(alloc: Global, words: &[u32]) -> Result<Vec<u8>, Fail> {
    let params = read_params(alloc, STANDARD_PARAMS)?;
    let image = Image::new(
        &params,
        Vec::new(alloc),
        Vec::from_slice(alloc, words)?,
        Vec::new(alloc),
        Vec::new(alloc),
        Vec::new(alloc),
        Vec::new(alloc),
    );
    match image {
        Some(image) => Ok(write_image(alloc, &image)?),
        None => Err(Fail::new("an image")),
    }
}

#[test]
fn any_image_is_run(rt: HostRuntime) -> Result<(), Fail> {
    let alloc = rt.alloc();
    for &(words, code, text) in &WORDS {
        let image = bare(alloc, words)?;
        expect(&rt, &run(alloc, &image, "0")?, code, text);
    }
    Ok(())
}
