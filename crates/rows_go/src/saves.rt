// What `go` saves, and when.
ghost use Rattle.std.specs.Prelude.{Some};

use crate::go::owned;
use image_file::{load_image, write_image};
use image_runs::run_image;
use layout_params::STANDARD_PARAMS;
use rv_emulate::CpuEnd;
use sil_base::{Load, MemorySink, MemoryStore, Record, Save, Store};
use sil_cli::sil_main;
use std::alloc::{AllocError, Global};
use std::test::Fail;
use unit_io::Units;

/// A save: the name, the bytes, and how many loads came before.
#[derive(Drop)]
struct Saved {
    name: Record,
    bytes: Vec<u8>,
    loads: u64,
}

/// A store in memory that writes down each save.
#[derive(Drop)]
struct Recorder {
    alloc: Global,
    inner: MemoryStore,
    loads: u64,
    saves: Vec<Saved>,
}

impl Recorder {
    fn new(alloc: Global, files: &[(&str, &[u8])]) -> Result<Recorder, AllocError> {
        let mut inner = MemoryStore::new(alloc, Vec::new(alloc));
        for (name, bytes) in files {
            inner.set(name, bytes)?;
        }
        Ok(Recorder {
            alloc,
            inner,
            loads: 0,
            saves: Vec::new(alloc),
        })
    }

    fn saved(&self, name: &str, bytes: &[u8]) -> Result<Saved, AllocError> {
        Ok(Saved {
            name: Record::of(self.alloc, name.as_bytes())?,
            bytes: Vec::from_slice(self.alloc, bytes)?,
            loads: self.loads,
        })
    }
}

impl Store for Recorder {
    ghost files = { λ r. Some r.inner.files };

    ghost faults = { λ r. r.inner.faults };

    fn load(&mut self, name: &str, limit: u64, into: &mut Vec<u8>) -> Load {
        self.loads = self.loads.saturating_add(1);
        self.inner.load(name, limit, into)
    }

    fn save(&mut self, name: &str, bytes: &[u8]) -> Save {
        let Ok(saved) = self.saved(name, bytes) else {
            return Save::Memory;
        };
        if self.saves.push(saved).is_err() {
            return Save::Memory;
        }
        self.inner.save(name, bytes)
    }
}

const SUM: &[u8] = b" MOVD X,ONE\n ENDEX X\nX DESCR\nONE DESCR\n END\n";

/// Files for which no image is made, from missing files to a source that isn't installed so far, and the status.
static NOT_SAVED: [(&[(&str, &[u8])], u8); 12] = [
    (&[], 13),
    (&[("PARAMS", STANDARD_PARAMS)], 13),
    (&[("PARAMS", STANDARD_PARAMS), ("TABLES", b"")], 13),
    (
        &[
            ("PARAMS", STANDARD_PARAMS),
            ("TABLES", b""),
            ("SRC", b" COPY LIB\n END\n"),
        ],
        13,
    ),
    (&[("PARAMS", b"?"), ("TABLES", b""), ("SRC", SUM)], 4),
    (
        &[("PARAMS", b"DESCR 12\n"), ("TABLES", b""), ("SRC", SUM)],
        4,
    ),
    (
        &[
            ("PARAMS", STANDARD_PARAMS),
            ("TABLES", b""),
            ("SRC", b" MOVE X\n END\n"),
        ],
        3,
    ),
    (
        &[
            ("PARAMS", STANDARD_PARAMS),
            ("TABLES", b""),
            ("SRC", b" ENDEX Q\n END\n"),
        ],
        3,
    ),
    (
        &[
            ("PARAMS", STANDARD_PARAMS),
            ("TABLES", b""),
            ("SRC", b"A EQU A\n END\n"),
        ],
        3,
    ),
    (
        &[
            ("PARAMS", STANDARD_PARAMS),
            ("TABLES", b""),
            ("SRC", b"X DESCR 0,65536\n END\n"),
        ],
        3,
    ),
    (
        &[
            ("PARAMS", STANDARD_PARAMS),
            ("TABLES", b""),
            ("SRC", b" STREAD X,X\nX DESCR\n END\n"),
        ],
        16,
    ),
    (
        &[("PARAMS", STANDARD_PARAMS), ("TABLES", b"?"), ("SRC", SUM)],
        3,
    ),
];

/// Files that are installed, the loads before the image is saved, and the status.
static SAVED: [(&[(&str, &[u8])], u64, u8); 2] = [
    (
        &[("PARAMS", STANDARD_PARAMS), ("TABLES", b""), ("SRC", SUM)],
        3,
        0,
    ),
    (
        &[
            ("PARAMS", STANDARD_PARAMS),
            ("TABLES", b""),
            ("SRC", b" COPY A\n COPY B\n"),
            ("A", b" MOVD X,ONE\n ENDEX X\n"),
            ("B", b"X DESCR\nONE DESCR\n END\n"),
        ],
        5,
        0,
    ),
];

/// The status where memory was wanted.
const WANT_OF_MEMORY: u8 = 12;

/// The status of `go SRC TABLES PARAMS IMAGE 5`, but for want of memory.
fn go(alloc: Global, store: &mut Recorder) -> Result<u8, AllocError> {
    let words = owned(alloc, &["go", "SRC", "TABLES", "PARAMS", "IMAGE", "5"])?;
    let mut notes = MemorySink::new(alloc, Vec::new(alloc));
    let mut units = Units::new();
    match sil_main(alloc, &words, store, &mut units, &mut notes).code {
        WANT_OF_MEMORY => Err(AllocError),
        code => Ok(code),
    }
}

/// Whether bytes are a whole image whose run exits with 0.
fn is_whole(alloc: Global, bytes: &[u8]) -> Result<bool, Fail> {
    let image = load_image(alloc, bytes)?;
    let again = write_image(alloc, &image)?;
    let end = run_image(alloc, bytes, 5, &mut Units::new());
    Ok(again.as_slice() == bytes && matches!(end, Ok(CpuEnd::Exit(0))))
}

#[test]
fn nothing_is_saved_before_an_image_is_made(rt: HostRuntime) -> Result<(), Fail> {
    for &(files, code) in &NOT_SAVED {
        let mut store = Recorder::new(rt.alloc(), files)?;
        assert_eq!(rt; go(rt.alloc(), &mut store)?, code);
        assert!(rt; store.saves.is_empty());
    }
    Ok(())
}

#[test]
fn one_whole_image_is_saved_after_all_loads(rt: HostRuntime) -> Result<(), Fail> {
    for &(files, loads, code) in &SAVED {
        let mut store = Recorder::new(rt.alloc(), files)?;
        assert_eq!(rt; go(rt.alloc(), &mut store)?, code);
        let [saved] = store.saves.as_slice() else {
            panic!(rt; "not one save");
        };
        assert!(rt; saved.name.bytes() == b"IMAGE".as_slice());
        assert_eq!(rt; saved.loads, loads);
        assert!(rt; is_whole(rt.alloc(), &saved.bytes)?);
    }
    Ok(())
}
