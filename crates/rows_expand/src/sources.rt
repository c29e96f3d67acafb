// The code of a source.
use layout_params::STANDARD_PARAMS;
use macro_expand::expand_all;
use sil_base::MemoryStore;
use sil_check::{SourceNames, check};
use sil_install::law_of_built_programs;
use sil_micro::Code;
use std::alloc::Global;
use std::test::Fail;

/// The code of a source, with the standard parameters and no tables.
pub fn code_of(alloc: Global, source: &[u8]) -> Result<Code, Fail> {
    law_of_built_programs();
    let mut store = MemoryStore::new(alloc, Vec::new(alloc));
    store.set("SRC", source)?;
    store.set("TABLES", b"")?;
    store.set("PARAMS", STANDARD_PARAMS)?;
    let names = SourceNames::of(alloc, "SRC", "TABLES", "PARAMS")?;
    let Ok(checked) = check(alloc, &mut store, &names) else {
        return Err(Fail::new("a program"));
    };
    Ok(expand_all(alloc, &checked.program, &checked.params)?)
}
