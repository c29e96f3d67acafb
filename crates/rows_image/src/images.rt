// Images, their bytes, and what is none.
use image_file::{Image, load_image, write_image};
use layout_params::{Layout, ParamStop, STANDARD_PARAMS, read_params};
use sil_macros::Macro;
use std::alloc::Global;
use std::test::Fail;

const FIRST: (u64, u32, Macro) = (0x1_0000, 7, Macro::Endex);

const LAST: (u64, u32, Macro) = (0x1_0004, 7, Macro::Endex);

/// The places of statements, the kinds of cells, and whether there is an image of them.
static PARTS: [(&[(u64, u32, Macro)], &[u8], bool); 9] = [
    (&[FIRST], &[0], true),
    (&[(0x1_0002, 7, Macro::Endex)], &[0], false),
    (&[(0xfffc, 7, Macro::Endex)], &[0], false),
    (&[(0x1_0008, 7, Macro::Endex)], &[0], false),
    (&[FIRST, LAST], &[0], true),
    (&[LAST, FIRST], &[0], false),
    (&[FIRST, FIRST], &[0], false),
    (&[FIRST], &[2], false),
    (&[FIRST], &[0, 0], false),
];

/// Words, tables, and whether there is an image of them alone.
static BARE: [(&[u32], &[u8], bool); 3] = [
    (&[0], &[], true),
    (&[], &[], false),
    (&[0], &[0; 16], false),
];

/// Two code words, three constants and one static cell
fn image_of(
    alloc: Global,
    statements: &[(u64, u32, Macro)],
    kinds: &[u8],
) -> Result<Option<Image>, ParamStop> {
    Ok(Image::new(
        &read_params(alloc, STANDARD_PARAMS)?,
        Vec::from_slice(alloc, statements)?,
        Vec::from_slice(alloc, &[0x73u32, 0x13])?,
        Vec::from_slice(alloc, b"(X)")?,
        Vec::from_slice(alloc, &[0u8; 16])?,
        Vec::from_slice(alloc, kinds)?,
        Vec::new(alloc),
    ))
}

#[test]
fn an_image_is_written_and_read_again(rt: HostRuntime) -> Result<(), Fail> {
    let Some(image) = image_of(rt.alloc(), &[FIRST], &[0])? else {
        panic!(rt; "an image of these parts");
    };
    let bytes = write_image(rt.alloc(), &image)?;
    assert_eq!(rt; bytes.len(), 196);
    assert!(rt; &bytes[..16] == b"SILRV64\n\x01\0\0\0\x10\0\0\0".as_slice());
    assert!(rt; &bytes[152..168] == b"\0\0\x01\0\0\0\0\0\x07\0\0\0\x1c\0\0\0".as_slice());
    match load_image(rt.alloc(), &bytes) {
        Ok(image) => {
            assert_eq!(rt; image.statement(0), Some(FIRST));
            assert_eq!(rt; (image.statement(1), image.statements()), (None, 1));
            assert!(rt; image.words() == [0x73u32, 0x13].as_slice());
            assert!(rt; image.constants() == b"(X)".as_slice());
            assert!(rt; image.cells() == [0u8; 16].as_slice());
            assert!(rt; image.kinds() == [0u8].as_slice());
            assert!(rt; image.tables().is_empty());
            assert!(rt; image.date() == *b"01/01/70");
            assert_eq!(rt;
                (image.numbers().descr(), image.parameters()[13]),
                (16, 256)
            );
            assert_eq!(rt; image.cell_total(), 167);
        }
        Err(_) => panic!(rt; "an image of its bytes"),
    }
    Ok(())
}

/// These code words and tables alone
fn bare(alloc: Global, words: &[u32], tables: &[u8]) -> Result<Option<Image>, ParamStop> {
    Ok(Image::new(
        &read_params(alloc, STANDARD_PARAMS)?,
        Vec::new(alloc),
        Vec::from_slice(alloc, words)?,
        Vec::new(alloc),
        Vec::new(alloc),
        Vec::new(alloc),
        Vec::from_slice(alloc, tables)?,
    ))
}

/// The first entry of the one table, and whether it fits
static ENTRIES: [([u8; 16], bool); 9] = [
    ([4, 0, 0, 0, 0, 0, 0, 0, 0, 0, 0, 0, 0, 0, 0, 0], true),
    ([5, 0, 0, 0, 0, 0, 0, 0, 0, 0, 0, 0, 0, 0, 0, 0], false),
    ([1, 0, 0, 0, 0, 0, 0, 0, 0, 0, 0, 0, 0, 0, 0, 0], true),
    ([1, 0, 1, 0, 0, 0, 0, 0, 0, 0, 0, 0, 0, 0, 0, 0], false),
    ([0, 0, 0, 1, 0, 0, 0, 0, 0, 0, 0, 0, 0, 0, 0, 0], false),
    ([0, 1, 0, 0, 0, 0, 0, 0, 5, 0, 0, 0, 0, 0, 0, 128], true),
    ([0, 2, 0, 0, 0, 0, 0, 0, 0, 0, 0, 0, 0, 0, 0, 0], false),
    ([0, 0, 0, 0, 0, 0, 0, 0, 5, 0, 0, 0, 0, 0, 0, 0], false),
    ([0, 0, 0, 0, 0, 0, 0, 1, 0, 0, 0, 0, 0, 0, 0, 0], false),
];

#[test]
fn an_image_keeps_to_the_rules_of_its_parts(rt: HostRuntime) -> Result<(), Fail> {
    for &(statements, kinds, is) in &PARTS {
        assert_eq!(rt; image_of(rt.alloc(), statements, kinds)?.is_some(), is);
    }
    for &(words, tables, is) in &BARE {
        assert_eq!(rt; bare(rt.alloc(), words, tables)?.is_some(), is);
    }
    for (entry, fits) in &ENTRIES {
        let mut table = Vec::from_slice(rt.alloc(), entry)?;
        table.resize(4096, 0)?;
        let image = bare(rt.alloc(), &[0], &table)?;
        assert_eq!(rt; image.is_some(), *fits, "{entry:?}");
    }
    Ok(())
}
