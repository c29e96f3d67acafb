// The size of a cell, under two layouts.
use crate::printing::{HELLO, holds, tape};
use layout_params::STANDARD_PARAMS;
use rows_go::go::{files, owned};
use sil_base::MemorySink;
use sil_cli::sil_main;
use std::alloc::{AllocError, Global};
use std::test::Fail;
use unit_io::Units;

/// The parameters of a layout with 24 bytes to a descriptor.
const WIDE_PARAMS: &[u8] =
    b"DESCR 24\nAOFF 0\nFOFF 8\nFLEN 4\nVOFF 16\nVLEN 8\nFNC 1\nMARK 2\nPTR 4\nSTTL 8\nTTL 16\nSTSIZE 64\nDYNSIZ 100\nOBSIZ 256\nUNITI 5\nUNITO 6\nUNITP 7\nDATE 01/01/70\n";

/// Parameters, and the bytes from the twelfth to the nineteenth of an image.
static SIZES: [(&[u8], [u8; 8]); 2] = [
    (STANDARD_PARAMS, [16, 0, 0, 0, 0, 0, 0, 0]),
    (WIDE_PARAMS, [24, 0, 0, 0, 0, 0, 0, 0]),
];

/// Whether `go` prints under these parameters, and saves an image that has these bytes behind its
/// eight first ones and the number of the version.
fn is_so(alloc: Global, params: &[u8], size: &[u8; 8]) -> Result<bool, AllocError> {
    let words = owned(alloc, &["go", "SRC", "TABLES", "PARAMS", "IMAGE", "5"])?;
    let mut store = files(alloc, HELLO, &[])?;
    store.set("PARAMS", params)?;
    let mut notes = MemorySink::new(alloc, Vec::new(alloc));
    let mut units = Units::new();
    let _ = units.attach(6, Box::new(alloc, tape(alloc, &[], &[])?)?);
    let status = sil_main(alloc, &words, &mut store, &mut units, &mut notes);
    let printed = holds(units.detach(6), &[b" HELLO"]);
    let image = store.get("IMAGE").unwrap_or_default();
    Ok(status.code == 0 && printed && image.get(12..20) == Some(size.as_slice()))
}

#[test]
fn an_image_has_the_size_of_a_cell(rt: HostRuntime) -> Result<(), Fail> {
    for (params, size) in &SIZES {
        assert!(rt; is_so(rt.alloc(), params, size)?);
    }
    Ok(())
}
