// Programs of sources.
use rows_go::go::files;
use sil_check::{Checked, SourceNames, check};
use std::alloc::Global;
use std::test::Fail;

/// The program of a source, with the standard parameters and no tables.
pub fn checked_of(alloc: Global, source: &[u8]) -> Result<Checked, Fail> {
    let names = SourceNames::of(alloc, "SRC", "TABLES", "PARAMS")?;
    match check(alloc, &mut files(alloc, source, &[])?, &names) {
        Ok(checked) => Ok(checked),
        Err(_) => Err(Fail::new("a program")),
    }
}
