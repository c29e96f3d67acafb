// Bytes that are no image, and the part by which they are refused.
use crate::samples::Sample::{self, Bare, Small, Tables};
use crate::samples::{put_at, refused_part};
use std::test::Fail;

/// The end of each part of the small image's 257 bytes, and the part by which a prefix that ends before
/// it is refused.
static ENDS: [(usize, u8); 9] = [
    (8, 1),
    (12, 2),
    (132, 3),
    (152, 4),
    (184, 6),
    (196, 7),
    (206, 8),
    (254, 9),
    (257, 10),
];

#[test]
fn a_prefix_is_refused_by_the_part_that_is_cut_short(rt: HostRuntime) -> Result<(), Fail> {
    let bytes = Small.bytes(rt.alloc())?;
    assert_eq!(rt; bytes.len(), 257);
    let mut from = 0;
    for (end, part) in ENDS {
        for count in from..end {
            let prefix = bytes.get(..count).unwrap_or_default();
            assert_eq!(rt; refused_part(rt.alloc(), prefix)?, Some(part), "{count}");
        }
        from = end;
    }
    assert_eq!(rt; refused_part(rt.alloc(), &bytes)?, None);
    Ok(())
}

#[test]
fn bytes_after_the_last_part_are_refused(rt: HostRuntime) -> Result<(), Fail> {
    for sample in [Small, Bare, Tables] {
        let mut bytes = sample.bytes(rt.alloc())?;
        bytes.push(0)?;
        assert_eq!(rt; refused_part(rt.alloc(), &bytes)?, Some(12));
    }
    Ok(())
}

/// What is written over an image, from a place on, and the part by which the bytes are then refused.
type Row = (Sample, usize, &'static [u8], Option<u8>);

/// The first eight bytes and the version.
static HEADINGS: [Row; 6] = [
    (Small, 0, b"s", Some(1)),
    (Small, 7, b"\r", Some(1)),
    (Small, 8, &[0], Some(2)),
    (Small, 8, &[2], Some(2)),
    (Small, 11, &[1], Some(2)),
    (Small, 0, b"SILRV64\n\x01\0\0\0", None),
];

/// Each count at its limit, and one past it: 16,384 statements, 201,310,208 code words, 67,108,864
/// constant bytes, 1,048,576 cells with the 166 after the static ones, and 256 tables.
static COUNTS: [Row; 17] = [
    (Bare, 132, &[0x00, 0x40, 0, 0], Some(6)),
    (Bare, 132, &[0x01, 0x40, 0, 0], Some(5)),
    (Bare, 132, &[0xff, 0xff, 0xff, 0xff], Some(5)),
    (Bare, 136, &[0x00, 0xc0, 0xff, 0x0b], Some(7)),
    (Bare, 136, &[0x01, 0xc0, 0xff, 0x0b], Some(5)),
    (Bare, 136, &[0xff, 0xff, 0xff, 0xff], Some(5)),
    (Bare, 136, &[0, 0, 0, 0], Some(5)),
    (Bare, 136, &[1, 0, 0, 0], None),
    (Bare, 140, &[0, 0, 0, 4], Some(8)),
    (Bare, 140, &[1, 0, 0, 4], Some(5)),
    (Bare, 140, &[0xff, 0xff, 0xff, 0xff], Some(5)),
    (Bare, 144, &[0x5a, 0xff, 0x0f, 0], Some(9)),
    (Bare, 144, &[0x5b, 0xff, 0x0f, 0], Some(5)),
    (Bare, 144, &[0xff, 0xff, 0xff, 0xff], Some(5)),
    (Bare, 148, &[0, 1, 0, 0], Some(11)),
    (Bare, 148, &[1, 1, 0, 0], Some(5)),
    (Bare, 148, &[0xff, 0xff, 0xff, 0xff], Some(5)),
];

/// The entries of the statements at 152 and 168: places, cards, macros and zeros.
static STATEMENTS: [Row; 18] = [
    (Small, 152, &[0, 0, 1, 0, 0, 0, 0, 0], None),
    (Small, 152, &[4, 0, 1, 0, 0, 0, 0, 0], None),
    (Small, 152, &[0xfc, 0xff, 0, 0, 0, 0, 0, 0], Some(6)),
    (Small, 152, &[2, 0, 1, 0, 0, 0, 0, 0], Some(6)),
    (Small, 152, &[8, 0, 1, 0, 0, 0, 0, 0], Some(6)),
    (Small, 152, &[0, 0, 1, 0, 0, 0, 0, 1], Some(6)),
    (Small, 168, &[4, 0, 1, 0, 0, 0, 0, 0], None),
    (Small, 168, &[0, 0, 1, 0, 0, 0, 0, 0], Some(6)),
    (Small, 168, &[9, 0, 1, 0, 0, 0, 0, 0], Some(6)),
    (Small, 168, &[0x0c, 0, 1, 0, 0, 0, 0, 0], Some(6)),
    (Small, 160, &[0xff, 0xff, 0xff, 0xff], None),
    (Small, 160, &[0, 0, 0, 0], None),
    (Small, 164, &[129, 0], None),
    (Small, 164, &[130, 0], Some(6)),
    (Small, 164, &[0, 1], Some(6)),
    (Small, 166, &[1, 0], Some(6)),
    (Small, 166, &[0, 1], Some(6)),
    (Small, 182, &[1], Some(6)),
];

/// Code words of any kind, constants and cells of any bytes, and the three kinds at 254.
static BODIES: [Row; 8] = [
    (Small, 184, &[0, 0, 0, 0], None),
    (Small, 192, &[0xff, 0xff, 0xff, 0xff], None),
    (Small, 196, &[0, 0xff], None),
    (Small, 206, &[0xff; 48], None),
    (Small, 254, &[1, 1, 1], None),
    (Small, 254, &[2], Some(10)),
    (Small, 256, &[2], Some(10)),
    (Small, 255, &[0xff], Some(10)),
];

/// Entries of the first table, at 156, and the last of the second, at 8,332.
static ENTRIES: [Row; 23] = [
    (Tables, 156, &[2], None),
    (Tables, 156, &[3], None),
    (Tables, 156, &[4], None),
    (Tables, 156, &[5], Some(11)),
    (Tables, 156, &[1, 0, 1, 0], None),
    (Tables, 156, &[1, 0, 2, 0], Some(11)),
    (Tables, 156, &[1, 0, 0, 1], Some(11)),
    (Tables, 156, &[0, 0, 1, 0], Some(11)),
    (Tables, 156, &[2, 0, 0, 1], Some(11)),
    (Tables, 157, &[1], None),
    (Tables, 157, &[2], Some(11)),
    (
        Tables,
        157,
        &[1, 0, 0, 0, 0, 0, 0, 5, 0, 0, 0, 0, 0, 0, 0x80],
        None,
    ),
    (Tables, 157, &[0, 0, 0, 0, 0, 0, 0, 5], Some(11)),
    (Tables, 171, &[1], Some(11)),
    (Tables, 160, &[1], Some(11)),
    (Tables, 161, &[1], Some(11)),
    (Tables, 162, &[1], Some(11)),
    (Tables, 163, &[1], Some(11)),
    (Tables, 8332, &[1, 1, 1, 0, 0, 0, 0, 0, 7], None),
    (Tables, 8332, &[1, 0, 2], Some(11)),
    (Tables, 8332, &[5], Some(11)),
    (Tables, 8339, &[1], Some(11)),
    (Tables, 8347, &[1], Some(11)),
];

#[test]
fn bytes_are_refused_by_the_first_part_that_differs(rt: HostRuntime) -> Result<(), Fail> {
    let tables: [&[Row]; 5] = [&HEADINGS, &COUNTS, &STATEMENTS, &BODIES, &ENTRIES];
    for rows in tables {
        for &(sample, place, new, part) in rows {
            let mut bytes = sample.bytes(rt.alloc())?;
            put_at(&mut bytes, place, new);
            let refused = refused_part(rt.alloc(), &bytes)?;
            assert_eq!(rt; refused, part, "{sample:?} {place} {new:?}");
        }
    }
    Ok(())
}

/// Two changes at once, of unlike parts, and the part by which the bytes are refused: the first of the
/// two.
static FIRST_OF_TWO: [(Sample, usize, &[u8], usize, &[u8], u8); 6] = [
    (Small, 0, b"s", 8, &[2], 1),
    (Small, 8, &[2], 12, &[17], 2),
    (Small, 12, &[17], 136, &[0], 3),
    (Small, 136, &[0], 166, &[1], 5),
    (Small, 166, &[1], 256, &[2], 6),
    (Tables, 144, &[0x5a, 0xff, 0x0f, 0], 156, &[5], 9),
];

#[test]
fn of_two_parts_the_first_is_told(rt: HostRuntime) -> Result<(), Fail> {
    for &(sample, place, new, next, more, part) in &FIRST_OF_TWO {
        let mut bytes = sample.bytes(rt.alloc())?;
        put_at(&mut bytes, place, new);
        put_at(&mut bytes, next, more);
        assert_eq!(rt; refused_part(rt.alloc(), &bytes)?, Some(part));
    }
    Ok(())
}
