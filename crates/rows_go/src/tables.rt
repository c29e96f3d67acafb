// Syntax tables in a saved image.
use crate::go::{files, go};
use image_file::{Image, load_image};
use std::alloc::{AllocError, Global};
use std::test::Fail;

static TABLES: &[u8] =
    b"BEGIN T\nFOR('A') PUT(Z) GOTO(U)\nFOR(66) PUT(-2) ERROR\nELSE STOPSH\nEND T\nBEGIN U\nELSE PUT(0) CONTIN\nEND U\n";

/// Where an entry stands among the bytes of the two tables, 4,096 bytes each and sixteen an entry,
/// and its bytes; Z is 0x4000_0000. The entries are those of 64 to 66 and 255 in T, and of 0 and 255
/// in U.
static ENTRIES: [(usize, &[u8]); 6] = [
    (1024, b"\x03\0\0\0\0\0\0\0\0\0\0\0\0\0\0\0"),
    (1040, b"\x01\x01\x01\0\0\0\0\0\0\0\0\x40\0\0\0\0"),
    (
        1056,
        b"\x04\x01\0\0\0\0\0\0\xfe\xff\xff\xff\xff\xff\xff\xff",
    ),
    (4080, b"\x03\0\0\0\0\0\0\0\0\0\0\0\0\0\0\0"),
    (4096, b"\0\x01\0\0\0\0\0\0\0\0\0\0\0\0\0\0"),
    (8176, b"\0\x01\0\0\0\0\0\0\0\0\0\0\0\0\0\0"),
];

/// The image that is saved with these tables.
fn image_with(alloc: Global, tables: &[u8]) -> Result<Option<Image>, AllocError> {
    let mut store = files(alloc, b" ENDEX Z\nZ DESCR\n END\n", &[])?;
    store.set("TABLES", tables)?;
    let done = go(alloc, store, "5")?;
    let Some(bytes) = &done.image else {
        return Ok(None);
    };
    Ok(load_image(alloc, bytes).ok())
}

#[test]
fn tables_are_saved(rt: HostRuntime) -> Result<(), Fail> {
    let image = image_with(rt.alloc(), TABLES)?.expect(&rt, "an image");
    assert_eq!(rt; image.tables().len(), 8192);
    for &(at, expected) in &ENTRIES {
        let entry = image.tables().get(at..at.saturating_add(16));
        assert!(rt; entry == Some(expected));
    }
    Ok(())
}
