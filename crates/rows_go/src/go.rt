// Calls of `go` over files in memory.
use layout_params::STANDARD_PARAMS;
use sil_base::{MemorySink, MemoryStore};
use sil_cli::sil_main;
use std::alloc::{AllocError, Global};
use unit_io::Units;

/// What the top call answers: its status, its notes, and the image that it saved.
#[derive(Drop)]
pub struct Answer {
    pub code: u8,
    pub text: Vec<u8>,
    pub image: Option<Vec<u8>>,
}

/// A store of a source, empty tables and the standard parameters.
pub fn files(alloc: Global, source: &[u8], fails: &[u64]) -> Result<MemoryStore, AllocError> {
    let mut store = MemoryStore::new(alloc, Vec::from_slice(alloc, fails)?);
    store.set("SRC", source)?;
    store.set("TABLES", b"")?;
    store.set("PARAMS", STANDARD_PARAMS)?;
    Ok(store)
}

pub fn owned(alloc: Global, words: &[&str]) -> Result<Vec<String>, AllocError> {
    let mut owned = Vec::new(alloc);
    for word in words {
        owned.push(String::from_str(alloc, word)?)?;
    }
    Ok(owned)
}

/// The answer to these words, where some puts of notes fail.
pub fn call(
    alloc: Global,
    mut store: MemoryStore,
    sink_fails: &[u64],
    words: &[&str],
) -> Result<Answer, AllocError> {
    let words = owned(alloc, words)?;
    let mut notes = MemorySink::new(alloc, Vec::from_slice(alloc, sink_fails)?);
    let mut units = Units::new();
    let status = sil_main(alloc, &words, &mut store, &mut units, &mut notes);
    let image = match store.get("IMAGE") {
        Some(bytes) => Some(Vec::from_slice(alloc, bytes)?),
        None => None,
    };
    Ok(Answer {
        code: status.code,
        text: Vec::from_slice(alloc, notes.bytes())?,
        image,
    })
}

/// `go SRC TABLES PARAMS IMAGE N`
pub fn go(alloc: Global, store: MemoryStore, steps: &str) -> Result<Answer, AllocError> {
    let words = ["go", "SRC", "TABLES", "PARAMS", "IMAGE", steps];
    call(alloc, store, &[], &words)
}
