// Calls on units that are there.
use crate::accesses::{ANSWER, ANSWERED, CALL, CONSTANTS, SCRATCH, registers};
use rows_back::code::{end_on, lands};
use rv_emulate::CpuEnd;
use sil_base::Record;
use std::alloc::{AllocError, Global};
use std::test::Fail;
use unit_io::{Tape, Unit, Units};

/// Formats: of a text, of characters, of a number, of a number with decimals, and of both on two records.
static FORMATS: &[u8] = b"(3HABC)(2A1)(I3)(F5.1)(I3/F5.1)";

/// What stands on a unit before a call.
static RECORDS: [&[u8]; 2] = [b"ONE", b"TWO"];

/// A call on a unit with these records that fails where it is told: a7, a0 to a5; what it answers; and the records
/// that it leaves.
type Row = (u64, [u64; 6], u64, &'static [&'static [u8]]);

static CALLS: [Row; 14] = [
    (2, [6, SCRATCH, 3, 0, 0, 0], 0, &[b"ONE", b"TWO"]),
    (2, [6, 0, 0, 0, 0, 0], 0, &[b"ONE", b"TWO"]),
    (3, [6, CONSTANTS, 7, 0, 0, 0], 0, &[b"ABC"]),
    (3, [6, CONSTANTS + 7, 5, CONSTANTS, 2, 0], 0, &[b"(3"]),
    (3, [6, CONSTANTS + 12, 4, SCRATCH, 1, 1], 0, &[b"  0"]),
    (3, [6, CONSTANTS, 6, 0, 0, 0], 2, &[b"ONE", b"TWO"]),
    (
        3,
        [6, CONSTANTS + 12, 4, SCRATCH, 1, 0],
        2,
        &[b"ONE", b"TWO"],
    ),
    (
        3,
        [6, CONSTANTS + 16, 6, SCRATCH, 1, 1],
        3,
        &[b"ONE", b"TWO"],
    ),
    // no record is written before one that can't be laid out
    (
        3,
        [6, CONSTANTS + 22, 9, SCRATCH, 2, 1],
        3,
        &[b"ONE", b"TWO"],
    ),
    // an absent unit comes before a text that is no format
    (3, [4, CONSTANTS, 6, 0, 0, 0], 4, &[b"ONE", b"TWO"]),
    (4, [6, 0, 0, 0, 0, 0], 0, &[b"ONE", b"TWO"]),
    (5, [6, 0, 0, 0, 0, 0], 0, &[b"ONE", b"TWO"]),
    (6, [6, 0, 0, 0, 0, 0], 0, &[]),
    (2, [4, SCRATCH, 3, 0, 0, 0], 4, &[b"ONE", b"TWO"]),
];

/// Calls whose unit fails, and what they answer.
static FAILURES: [(u64, [u64; 6], u64); 5] = [
    (2, [6, SCRATCH, 3, 0, 0, 0], 2),
    (3, [6, CONSTANTS, 7, 0, 0, 0], 1),
    (4, [6, 0, 0, 0, 0, 0], 1),
    (5, [6, 0, 0, 0, 0, 0], 1),
    (6, [6, 0, 0, 0, 0, 0], 1),
];

/// A call, and the end 5.
const FAULT: [u32; 4] = [0x0000_0073, 0x0010_0893, 0x0050_0513, 0x0000_0073];

/// Units of which one is there: unit 6, whose calls of these numbers fail.
fn units(alloc: Global, records: &[&[u8]], fails: &[u64]) -> Result<Units, AllocError> {
    let mut all = Vec::new(alloc);
    for bytes in records {
        all.push(Record::of(alloc, bytes)?)?;
    }
    let tape = Tape::new(alloc, all, Vec::from_slice(alloc, fails)?);
    let mut units = Units::new();
    let _ = units.attach(6, Box::new(alloc, tape)?);
    Ok(units)
}

/// Whether unit 6 tells just these records.
fn holds(units: &mut Units, want: &[&[u8]]) -> bool {
    let Some(unit) = units.detach(6) else {
        return false;
    };
    let Some(records) = unit.known() else {
        return false;
    };
    if records.len() != want.len() {
        return false;
    }
    for (record, bytes) in records.iter().zip(want) {
        if record.bytes() != *bytes {
            return false;
        }
    }
    true
}

#[test]
fn calls_are_answered_by_tapes(rt: HostRuntime) -> Result<(), Fail> {
    let alloc = rt.alloc();
    for (a7, operands, answer, left) in &CALLS {
        let mut units = units(alloc, &RECORDS, &[])?;
        let registers = registers(*a7, operands, 0, *answer);
        let end = end_on(alloc, FORMATS, &registers, &ANSWER, &mut units)?;
        assert_eq!(rt; end, lands(ANSWERED), "{a7} {operands:?}");
        assert!(rt; holds(&mut units, left), "{a7} {operands:?}");
    }
    Ok(())
}

#[test]
fn a_failed_call_is_told_at_the_end(rt: HostRuntime) -> Result<(), Fail> {
    let alloc = rt.alloc();
    for (a7, operands, answer) in &FAILURES {
        let registers = registers(*a7, operands, 0, *answer);
        let mut failing = units(alloc, &RECORDS, &[1])?;
        let end = end_on(alloc, FORMATS, &registers, &ANSWER, &mut failing)?;
        assert_eq!(rt; end, lands(ANSWERED), "{a7}");
        assert!(rt; holds(&mut failing, &RECORDS), "{a7}");
        let mut failing = units(alloc, &RECORDS, &[1])?;
        let end = end_on(alloc, FORMATS, &registers, &FAULT, &mut failing)?;
        assert_eq!(rt; end, Some(CpuEnd::UnitFault(0, 6)), "{a7}");
        let mut later = units(alloc, &RECORDS, &[2])?;
        let end = end_on(alloc, FORMATS, &registers, &FAULT, &mut later)?;
        assert_eq!(rt; end, Some(CpuEnd::BadCall(CALL + 12)), "{a7}");
    }
    Ok(())
}

/// A read, and a load of the bytes before and behind what was read.
#[test]
fn a_record_is_read_as_far_as_it_fits(rt: HostRuntime) -> Result<(), Fail> {
    let alloc = rt.alloc();
    let rows = [
        (3, 0, b'O'),
        (3, 2, b'E'),
        (2, 1, b'N'),
        (2, 2, 0),
        (9, 3, 0),
    ];
    for (room, at, byte) in rows {
        let mut units = units(alloc, &RECORDS, &[])?;
        let operands = [6, SCRATCH, room, 0, 0, 0];
        let registers = registers(2, &operands, 0, u64::from(byte));
        let load = 0x0005_c283 | at << 20;
        let end = end_on(alloc, FORMATS, &registers, &[0x0000_0073, load], &mut units)?;
        assert_eq!(rt; end, lands(CALL + 8), "{room} {at}");
    }
    let mut units = units(alloc, &[], &[])?;
    let registers = registers(2, &[6, SCRATCH, 3, 0, 0, 0], 0, 1);
    let end = end_on(alloc, FORMATS, &registers, &ANSWER, &mut units)?;
    assert_eq!(rt; end, lands(ANSWERED));
    Ok(())
}
