// That `go` runs the bytes that it loads.
ghost use Rattle.std.specs.Prelude.{None};

use crate::printing::{HELLO, holds, tape};
use rows_go::go::{files, owned};
use sil_base::{Load, MemorySink, MemoryStore, Save, Store};
use sil_cli::sil_main;
use std::alloc::Global;
use std::test::Fail;
use unit_io::Units;

/// Where the fifth byte of the constants of the image of `HELLO` stands: behind 152 bytes, two entries,
/// 302 code words, and four bytes.
const FIFTH: usize = 152 + 2 * 16 + 302 * 4 + 4;

/// A store that tells nothing, and gives the image back with this byte changed from H to J.
#[derive(Drop)]
struct Changing {
    inner: MemoryStore,
}

impl Store for Changing {
    ghost files = { λ s. None };

    ghost faults = { λ s. s.inner.faults };

    fn load(&mut self, name: &str, limit: u64, into: &mut Vec<u8>) -> Load {
        let answer = self.inner.load(name, limit, into);
        if name == "IMAGE" {
            if let Some(byte) = into.get_mut(FIFTH) {
                if *byte == b'H' {
                    *byte = b'J';
                }
            }
        }
        answer
    }

    fn save(&mut self, name: &str, bytes: &[u8]) -> Save {
        self.inner.save(name, bytes)
    }
}

/// What `go` prints with the image changed so.
fn prints(alloc: Global, want: &[&[u8]]) -> Result<bool, Fail> {
    let words = owned(alloc, &["go", "SRC", "TABLES", "PARAMS", "IMAGE", "5"])?;
    let mut store = Changing {
        inner: files(alloc, HELLO, &[])?,
    };
    let mut notes = MemorySink::new(alloc, Vec::new(alloc));
    let mut units = Units::new();
    let _ = units.attach(6, Box::new(alloc, tape(alloc, &[], &[])?)?);
    let status = sil_main(alloc, &words, &mut store, &mut units, &mut notes);
    Ok(status.code == 0 && notes.bytes() == b"exit 0\n".as_slice() && holds(units.detach(6), want))
}

#[test]
fn the_loaded_bytes_are_run(rt: HostRuntime) -> Result<(), Fail> {
    assert!(rt; prints(rt.alloc(), &[b" JELLO"])?);
    Ok(())
}
