// Rows of the macros that call units: one statement after another over a tape, which is unit 6.
ghost use Rattle.std.specs.Prelude.{◌≡◌};
ghost use Rattle.layout_params.specs.Parameters.{AreLegal, standard};

use crate::one_statement::{Move, moving, printing, standard_params};
use layout_params::Params;
use sil_base::Record;
use sil_machine::{End, sim};
use std::alloc::{AllocError, Global};
use std::test::Fail;
use unit_io::{Tape, Unit, UnitSet, Units, UnitsRead};

/// The end of a run of one statement that goes on.
const ON: End = End::Undefined(1);

/// The end of one that is undefined.
const UNDEFINED: End = End::Undefined(0);

/// The end of one whose unit fails.
const FAULT: End = End::UnitFault(0, 6);

/// A read; or a program of one statement, with its operands, the number of its unit and its end.
#[derive(Clone, Copy)]
enum Act {
    Read,
    Moves(Move, i64, End),
    Prints(&'static [u8], &'static [i64], i64, End),
}

/// The records of a tape, the numbers of its calls that fail, what is done, and its records then.
type Row = (
    &'static [&'static [u8]],
    &'static [u64],
    &'static [Act],
    &'static [&'static [u8]],
);

static ROWS: [Row; 24] = [
    // an item of width w right in its place, or asterisks
    (&[], &[], &[Act::Prints(b"(I3)", &[1234], 6, ON)], &[b"***"]),
    (&[], &[], &[Act::Prints(b"(I5)", &[-7], 6, ON)], &[b"   -7"]),
    // a format that is used up begins a record
    (
        &[],
        &[],
        &[Act::Prints(b"(I3)", &[1, 2], 6, ON)],
        &[b"  1", b"  2"],
    ),
    (
        &[],
        &[],
        &[Act::Prints(b"(3HX= ,I1)", &[1], 6, ON)],
        &[b"X= 1"],
    ),
    (
        &[],
        &[],
        &[Act::Prints(b"(6H HELLO)", &[], 6, ON)],
        &[b" HELLO"],
    ),
    (&[], &[], &[Act::Prints(b"(I3)", &[], 6, ON)], &[b""]),
    // a number meets an F item, or no item
    (
        &[],
        &[],
        &[Act::Prints(b"(F5.2)", &[1], 6, End::Trap(0))],
        &[],
    ),
    (&[], &[], &[Act::Prints(b"(2X)", &[1], 6, UNDEFINED)], &[]),
    // a call fails
    (&[], &[1], &[Act::Prints(b"(I3)", &[1], 6, FAULT)], &[]),
    (
        &[],
        &[2],
        &[Act::Prints(b"(I3)", &[1, 2], 6, FAULT)],
        &[b"  1"],
    ),
    // no unit has the number
    (&[], &[], &[Act::Prints(b"(I3)", &[1], 5, UNDEFINED)], &[]),
    (&[], &[], &[Act::Prints(b"(I3)", &[1], 0, UNDEFINED)], &[]),
    (&[], &[], &[Act::Prints(b"(I3)", &[1], -1, UNDEFINED)], &[]),
    (&[], &[], &[Act::Prints(b"(I3)", &[1], 22, UNDEFINED)], &[]),
    (
        &[],
        &[],
        &[Act::Prints(b"(I3)", &[1], 4294967302, UNDEFINED)],
        &[],
    ),
    // moves
    (
        &[b"A", b"B"],
        &[],
        &[
            Act::Read,
            Act::Moves(Move::Rewind, 6, ON),
            Act::Prints(b"(1HC)", &[], 6, ON),
        ],
        &[b"C"],
    ),
    (
        &[b"A", b"B"],
        &[],
        &[Act::Read, Act::Prints(b"(1HC)", &[], 6, ON)],
        &[b"A", b"C"],
    ),
    (
        &[b"A", b"B"],
        &[],
        &[
            Act::Read,
            Act::Read,
            Act::Moves(Move::Backspace, 6, ON),
            Act::Prints(b"(1HC)", &[], 6, ON),
        ],
        &[b"A", b"C"],
    ),
    (
        &[b"A", b"B"],
        &[],
        &[Act::Read, Act::Moves(Move::Endfile, 6, ON)],
        &[b"A"],
    ),
    (
        &[b"A"],
        &[1],
        &[Act::Moves(Move::Rewind, 6, FAULT)],
        &[b"A"],
    ),
    (
        &[b"A"],
        &[1],
        &[Act::Moves(Move::Backspace, 6, FAULT)],
        &[b"A"],
    ),
    (
        &[b"A"],
        &[1],
        &[Act::Moves(Move::Endfile, 6, FAULT)],
        &[b"A"],
    ),
    (
        &[b"A"],
        &[],
        &[Act::Moves(Move::Rewind, 7, UNDEFINED)],
        &[b"A"],
    ),
    (
        &[b"A"],
        &[],
        &[Act::Moves(Move::Endfile, 16, UNDEFINED)],
        &[b"A"],
    ),
];

/// A tape of these records.
fn tape(alloc: Global, records: &[&[u8]], fails: &[u64]) -> Result<Tape, AllocError> {
    let mut all = Vec::new(alloc);
    for bytes in records {
        all.push(Record::of(alloc, bytes)?)?;
    }
    Ok(Tape::new(alloc, all, Vec::from_slice(alloc, fails)?))
}

/// Whether a unit that was there tells just these records.
fn holds<U: Unit>(unit: Option<U>, want: &[&[u8]]) -> bool {
    let Some(unit) = unit else {
        return false;
    };
    let Some(records) = unit.known() else {
        return false;
    };
    if records.len() != want.len() {
        return false;
    }
    for (record, bytes) in records.iter().zip(want) {
        if record.bytes() != *bytes {
            return false;
        }
    }
    true
}

/// Whether a move ends so.
fn moves(
    alloc: Global,
    params: &Params,
    which: Move,
    unit: i64,
    end: End,
    units: &mut Units,
) -> Result<bool, Fail>
    requires standard { params.now ≡ standard }
    requires legal { AreLegal params.now }
{
    let program = moving(alloc, params, which, unit)?;
    Ok(sim(alloc, &program, params, 1, units) == end)
}

/// Whether a print of at most two values ends so.
fn prints(
    alloc: Global,
    params: &Params,
    text: &[u8],
    values: &[i64],
    unit: i64,
    end: End,
    units: &mut Units,
) -> Result<bool, Fail>
    requires standard { params.now ≡ standard }
    requires legal { AreLegal params.now }
{
    if values.len() > 2 {
        return Ok(false);
    }
    let one = values.get(0).copied().unwrap_or(0);
    let two = values.get(1).copied().unwrap_or(0);
    match printing(alloc, params, text, unit, (one, two), values.len())? {
        Some(program) => Ok(sim(alloc, &program, params, 1, units) == end),
        None => Ok(false),
    }
}

/// Whether what is done goes as it says.
fn goes(alloc: Global, params: &Params, act: Act, units: &mut Units) -> Result<bool, Fail>
    requires standard { params.now ≡ standard }
    requires legal { AreLegal params.now }
{
    match act {
        Act::Read => Ok(units.read(6, &mut [0; 4]) == UnitsRead::Rec(1)),
        Act::Moves(which, unit, end) => moves(alloc, params, which, unit, end, units),
        Act::Prints(text, values, unit, end) => {
            prints(alloc, params, text, values, unit, end, units)
        }
    }
}

/// Whether a row holds.
fn row_holds(alloc: Global, params: &Params, row: &Row) -> Result<bool, Fail>
    requires standard { params.now ≡ standard }
    requires legal { AreLegal params.now }
{
    let &(records, fails, acts, then) = row;
    let mut units = Units::new();
    let unit: Box<dyn Unit> = Box::new(alloc, tape(alloc, records, fails)?)?;
    let _ = units.attach(6, unit);
    for act in acts {
        if !goes(alloc, params, *act, &mut units)? {
            return Ok(false);
        }
    }
    Ok(holds(units.detach(6), then))
}

#[test]
fn macros_of_units_do_what_their_rows_say(rt: HostRuntime) -> Result<(), Fail> {
    let params = standard_params(rt.alloc())?;
    for (i, row) in ROWS.iter().enumerate() {
        assert!(rt; row_holds(rt.alloc(), &params, row)?, "{i}");
    }
    Ok(())
}
