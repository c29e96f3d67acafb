// Records, items, decimals, and the sink, the store and the units of a call.
use sil_base::{Items, Load, MemorySink, MemoryStore, Put, Record, Save, Sink, Store, decimal};
use std::test::Fail;
use unit_io::{UnitSet, Units};

#[test]
fn records_and_items_give_their_parts_back(rt: HostRuntime) -> Result<(), Fail> {
    let record = Record::of(rt.alloc(), b"CARD")?;
    assert!(rt; record.bytes() == b"CARD".as_slice());
    let items = Items::of(Vec::from_slice(rt.alloc(), &[1u32, 2, 3])?);
    assert!(rt; items.items() == [1, 2, 3].as_slice());
    assert!(rt; items.into_items().as_slice() == [1, 2, 3].as_slice());
    Ok(())
}

/// Numbers one after another, and the text after each.
static DECIMALS: [(i128, &[u8]); 3] = [
    (i128::MIN, b"n=-170141183460469231731687303715884105728"),
    (0, b"n=-1701411834604692317316873037158841057280"),
    (42, b"n=-170141183460469231731687303715884105728042"),
];

#[test]
fn decimals_have_a_sign_where_negative(rt: HostRuntime) -> Result<(), Fail> {
    let mut out = Vec::from_slice(rt.alloc(), b"n=")?;
    for &(number, text) in &DECIMALS {
        decimal(&mut out, number)?;
        assert!(rt; out.as_slice() == text);
    }
    Ok(())
}

/// Puts to a sink whose second fails.
static PUTS: [(&[u8], Put); 3] = [
    (b"one", Put::Ok),
    (b"two", Put::Failed),
    (b"three", Put::Ok),
];

#[test]
fn a_sink_fails_where_told(rt: HostRuntime) -> Result<(), Fail> {
    let mut sink = MemorySink::new(rt.alloc(), Vec::from_slice(rt.alloc(), &[2u64])?);
    for &(bytes, answer) in &PUTS {
        assert_eq!(rt; sink.put(bytes), answer);
    }
    assert!(rt; sink.bytes() == b"onethree".as_slice());
    Ok(())
}

/// Loads from a store whose fourth call fails, the third being a save.
static LOADS: [(&str, u64, Load, &[u8]); 3] = [
    ("c", 9, Load::Failed, b""),
    ("a", 2, Load::TooLong, b""),
    ("a", 3, Load::Ok, b"abc"),
];

#[test]
fn a_store_counts_loads_and_saves_together(rt: HostRuntime) -> Result<(), Fail> {
    let mut store = MemoryStore::new(rt.alloc(), Vec::from_slice(rt.alloc(), &[3u64, 4])?);
    let mut bytes = Vec::from_slice(rt.alloc(), b"old")?;
    store.set("a", b"abc")?;
    assert_eq!(rt; store.load("b", 9, &mut bytes), Load::Missing);
    assert_eq!(rt; store.save("b", b"xy"), Save::Ok);
    assert_eq!(rt; store.save("b", b"z"), Save::Failed);
    for &(name, limit, answer, loaded) in &LOADS {
        assert_eq!(rt; store.load(name, limit, &mut bytes), answer);
        assert!(rt; bytes.as_slice() == loaded);
    }
    assert!(rt; store.get("b").is_some_and(|file| file == b"xy".as_slice()));
    assert!(rt; store.get("c").is_none());
    Ok(())
}

#[test]
fn no_units_finish_at_once(rt: HostRuntime) {
    let mut units = Units::new();
    assert_eq!(rt; units.finish_all(), 0);
    assert_eq!(rt; units.close_all(), 0);
}
