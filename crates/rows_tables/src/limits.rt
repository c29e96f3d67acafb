// Files with many tables, and with a long class.
use crate::texts::{shown, symbols_of, tables_of};
use sil_base::decimal;
use std::alloc::{AllocError, Global};
use std::test::Fail;
use syntax_tables::{TableStop, read_tables};

/// So many tables, A0 and on, each of three lines.
fn many_tables(alloc: Global, count: u32) -> Result<Vec<u8>, AllocError> {
    let mut file = Vec::new(alloc);
    for n in 0..count {
        file.extend_from_slice(b"BEGIN A")?;
        decimal(&mut file, i128::from(n))?;
        file.extend_from_slice(b"\nELSE STOP\nEND A")?;
        decimal(&mut file, i128::from(n))?;
        file.extend_from_slice(b"\n")?;
    }
    Ok(file)
}

/// A table with a class of so many items, and the item 66 at the end.
fn long_class(alloc: Global, count: u32, item: &[u8]) -> Result<Vec<u8>, AllocError> {
    let mut file = Vec::from_slice(alloc, b"BEGIN T\nFOR(")?;
    for _ in 0..count {
        file.extend_from_slice(item)?;
    }
    file.extend_from_slice(b"66) STOP\nELSE ERROR\nEND T\n")?;
    Ok(file)
}

/// The number of a table in a file.
fn number_of(alloc: Global, file: &[u8], name: &[u8]) -> Result<Option<u16>, TableStop> {
    if file.len() > 2_097_152 {
        return Ok(None);
    }
    Ok(read_tables(alloc, file)?.find(name))
}

#[test]
fn tables_have_a_limit(rt: HostRuntime) -> Result<(), Fail> {
    let alloc = rt.alloc();
    let symbols = symbols_of(alloc)?;
    let file = many_tables(alloc, 256)?;
    assert_eq!(rt; tables_of(alloc, &file, &symbols)?.len(), 256);
    assert_eq!(rt; number_of(alloc, &file, b"A255")?, Some(255));
    assert_eq!(rt; number_of(alloc, &file, b"A256")?, None);
    for count in [257, 258, 10_000] {
        let file = many_tables(alloc, count)?;
        assert!(rt;
            shown(alloc, &file, &symbols)?.as_slice() == b"769 T4;".as_slice(),
            "{count}"
        );
    }
    Ok(())
}

#[test]
fn names_stand_for_their_first_table(rt: HostRuntime) -> Result<(), Fail> {
    let file = b"BEGIN T\nELSE STOP\nEND T\nBEGIN U\nELSE STOP\nEND U\nBEGIN U\nELSE STOP\nEND U\n";
    assert_eq!(rt; number_of(rt.alloc(), file, b"T")?, Some(0));
    assert_eq!(rt; number_of(rt.alloc(), file, b"U")?, Some(1));
    assert_eq!(rt; number_of(rt.alloc(), file, b"V")?, None);
    Ok(())
}

#[test]
fn classes_may_be_long(rt: HostRuntime) -> Result<(), Fail> {
    let alloc = rt.alloc();
    let symbols = symbols_of(alloc)?;
    let file = long_class(alloc, 100_000, b"65,")?;
    assert!(rt; shown(alloc, &file, &symbols)?.as_slice() == b"0E,65S,67E,;".as_slice());
    Ok(())
}
