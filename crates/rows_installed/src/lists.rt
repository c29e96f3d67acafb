// Lists of forty items under three layouts, with places that overlap, and stacks that are a cell short.
use crate::ends::ends_so;
use crate::texts::Sizes;
use sil_base::decimal;
use sil_machine::End;
use std::alloc::{AllocError, Global};
use std::process::Abort;
use std::test::Fail;

/// The layouts, whose stacks get as many cells as a row says.
static LAYOUTS: [Sizes; 3] = [
    [16, 0, 8, 2, 12, 4, 0],
    [24, 0, 8, 4, 16, 8, 0],
    [40, 16, 3, 1, 32, 8, 0],
];

/// The cells of a list of forty specifiers.
const CELLS: u64 = 80;

/// A list of forty items: of these cells, from one on, so far apart; or the same from the last to the first.
#[derive(Clone, Copy)]
struct Items {
    cells: u8,
    first: u64,
    apart: u64,
    turned: bool,
}

/// What a line of a row's program is made of.
#[derive(Clone, Copy)]
enum Line {
    Text(&'static [u8]),
    /// A macro's card whose last operand is a list.
    List(&'static [u8], Items),
    /// So many tests that the items of two lists are equal, in order.
    Equal(u64, Items, Items),
}

/// The number of an item's cell.
fn cell_of(list: Items, count: u64, item: u64) -> u64 {
    let place = if list.turned {
        count.wrapping_sub(item).wrapping_sub(1)
    } else {
        item
    };
    list.first.wrapping_add(list.apart.wrapping_mul(place))
}

fn put_cell(out: &mut Vec<u8>, list: Items, count: u64, item: u64) -> Result<(), AllocError> {
    out.push(list.cells)?;
    decimal(out, i128::from(cell_of(list, count, item)))
}

fn put_list(out: &mut Vec<u8>, list: Items) -> Result<(), AllocError> {
    out.extend_from_slice(b"(")?;
    for item in 0..40u64 {
        if item > 0 {
            out.push(b',')?;
        }
        put_cell(out, list, 40, item)?;
    }
    out.extend_from_slice(b")\n")
}

fn put_line(out: &mut Vec<u8>, line: Line) -> Result<(), AllocError> {
    match line {
        Line::Text(text) => out.extend_from_slice(text),
        Line::List(text, list) => {
            out.extend_from_slice(text)?;
            put_list(out, list)
        }
        Line::Equal(count, left, right) => {
            for item in 0..count {
                out.extend_from_slice(b" DEQL ")?;
                put_cell(out, left, count, item)?;
                out.push(b',')?;
                put_cell(out, right, count, item)?;
                out.extend_from_slice(b",BAD\n")?;
            }
            Ok(())
        }
    }
}

/// A cell with a value of its own; the first cell of each specifier has a flag.
fn put_value(out: &mut Vec<u8>, cell: u64) -> Result<(), AllocError> {
    out.push(b'X')?;
    decimal(out, i128::from(cell))?;
    out.extend_from_slice(b" DESCR ")?;
    decimal(out, i128::from(cell.wrapping_add(1)))?;
    out.extend_from_slice(if cell % 2 == 0 { b",1," } else { b",0," })?;
    decimal(out, i128::from(cell % 7))?;
    out.extend_from_slice(b"\n")
}

/// The cells, and names for those of the stack, which lies behind them, the hidden buffer and a hundred more.
fn put_cells(out: &mut Vec<u8>, descr: u64) -> Result<(), AllocError> {
    for cell in 0..CELLS {
        put_value(out, cell)?;
    }
    for cell in 0..CELLS {
        out.push(b'Y')?;
        decimal(out, i128::from(cell))?;
        out.extend_from_slice(b" DESCR\n")?;
    }
    out.extend_from_slice(b"Z DESCR\nONE DESCR 1\n")?;
    let hidden = descr.wrapping_add(19).checked_div(descr).unwrap_or(0);
    let stack = (2 * CELLS + 102).wrapping_add(hidden);
    for cell in 0..CELLS + 2 {
        out.push(b'T')?;
        decimal(out, i128::from(cell))?;
        out.extend_from_slice(b" EQU X0+DESCR*")?;
        decimal(out, i128::from(stack.wrapping_add(cell)))?;
        out.push(b'\n')?;
    }
    out.extend_from_slice(b" END\n")
}

/// The program of these lines, which exits with 0 where all tests hold, and with 1 by BAD, OVER or INTR10.
fn source_of(alloc: Global, lines: &[Line], descr: u64) -> Result<Vec<u8>, AllocError> {
    let mut source = Vec::from_slice(alloc, b" ISTACK\n")?;
    for line in lines {
        put_line(&mut source, *line)?;
    }
    source.extend_from_slice(b" ENDEX Z\nBAD ENDEX ONE\nOVER ENDEX ONE\nINTR10 ENDEX ONE\n")?;
    put_cells(&mut source, descr)?;
    Ok(source)
}

/// The cells with values (X), those without (Y), and those of the stack (T).
const X: Items = Items {
    cells: b'X',
    first: 0,
    apart: 1,
    turned: false,
};

const X_TURNED: Items = Items {
    cells: b'X',
    first: 0,
    apart: 1,
    turned: true,
};

const Y: Items = Items {
    cells: b'Y',
    first: 0,
    apart: 1,
    turned: false,
};

const T: Items = Items {
    cells: b'T',
    first: 0,
    apart: 1,
    turned: false,
};

const T_TURNED: Items = Items {
    cells: b'T',
    first: 0,
    apart: 1,
    turned: true,
};

/// The cells of the stack where the arguments of the first call stand.
const T_ARGUMENTS: Items = Items {
    cells: b'T',
    first: 2,
    apart: 1,
    turned: false,
};

/// The first cells of specifiers, and the second ones.
const X_SPECS: Items = Items {
    cells: b'X',
    first: 0,
    apart: 2,
    turned: false,
};

const X_SPECS_TURNED: Items = Items {
    cells: b'X',
    first: 0,
    apart: 2,
    turned: true,
};

const X_SECONDS_TURNED: Items = Items {
    cells: b'X',
    first: 1,
    apart: 2,
    turned: true,
};

const Y_SPECS: Items = Items {
    cells: b'Y',
    first: 0,
    apart: 2,
    turned: false,
};

const Y_SECONDS: Items = Items {
    cells: b'Y',
    first: 1,
    apart: 2,
    turned: false,
};

const T_SPECS: Items = Items {
    cells: b'T',
    first: 0,
    apart: 2,
    turned: false,
};

const T_SECONDS: Items = Items {
    cells: b'T',
    first: 1,
    apart: 2,
    turned: false,
};

/// The cells of the stack that the lines need, and the lines. With a cell less they go to OVER.
static FITTING: [(u64, &[Line]); 9] = [
    (40, &[Line::List(b" PUSH ", X), Line::Equal(40, T, X)]),
    (
        40,
        &[
            Line::List(b" PUSH ", X),
            Line::List(b" POP ", Y),
            Line::Equal(40, Y, X_TURNED),
        ],
    ),
    // all items are read before one is written
    (
        40,
        &[
            Line::List(b" PUSH ", X),
            Line::List(b" POP ", T),
            Line::Equal(40, T, X_TURNED),
        ],
    ),
    (
        40,
        &[
            Line::List(b" PUSH ", X),
            Line::Text(b" ISTACK\n"),
            Line::List(b" PUSH ", T_TURNED),
            Line::Equal(40, T, X_TURNED),
        ],
    ),
    (
        42,
        &[
            Line::Text(b" BRANCH CALL\n"),
            Line::Text(b"P PROC\n"),
            Line::Equal(40, T_ARGUMENTS, X),
            Line::List(b" POP ", Y),
            Line::Equal(40, Y, X_TURNED),
            Line::Text(b" ENDEX Z\n"),
            Line::Text(b"CALL PROC\n"),
            Line::List(b" RCALL ,P,", X),
        ],
    ),
    (
        42,
        &[
            Line::Text(b" BRANCH CALL\n"),
            Line::Text(b"P PROC\n"),
            Line::Equal(40, T_ARGUMENTS, X),
            Line::Text(b" ENDEX Z\n"),
            Line::Text(b"CALL PROC\n"),
            Line::List(b" PUSH ", X),
            Line::Text(b" ISTACK\n"),
            Line::List(b" RCALL ,P,", T),
        ],
    ),
    (
        80,
        &[
            Line::List(b" SPUSH ", X_SPECS),
            Line::Equal(80, T, X),
            Line::List(b" SPOP ", Y_SPECS),
            Line::Equal(40, Y_SPECS, X_SPECS_TURNED),
            Line::Equal(40, Y_SECONDS, X_SECONDS_TURNED),
        ],
    ),
    (
        80,
        &[
            Line::List(b" SPUSH ", X_SPECS),
            Line::List(b" SPOP ", T_SPECS),
            Line::Equal(40, T_SPECS, X_SPECS_TURNED),
            Line::Equal(40, T_SECONDS, X_SECONDS_TURNED),
        ],
    ),
    // each item's second cell is the first of the next
    (
        80,
        &[
            Line::List(b" SPUSH ", X_SPECS),
            Line::List(b" SPOP ", Y),
            Line::Equal(40, Y, X_SPECS_TURNED),
            Line::Text(b" DEQL Y40,X1,BAD\n"),
        ],
    ),
];

/// Whether lines do what they should on a stack of so many cells, and go to OVER with a cell less.
fn fits_exactly(alloc: Global, sizes: &Sizes, cells: u64, lines: &[Line]) -> Result<bool, Fail> {
    let source = source_of(alloc, lines, sizes[0])?;
    let mut enough = *sizes;
    enough[6] = cells;
    let mut short = *sizes;
    short[6] = cells.wrapping_sub(1);
    Ok(
        ends_so(alloc, &source, &enough, 999, Some(End::Exit(0)))?
            && ends_so(alloc, &source, &short, 999, Some(End::Exit(1)))?,
    )
}

#[test]
fn lists_of_forty_items(rt: HostRuntime) -> Result<(), Fail> {
    let alloc = rt.alloc();
    for sizes in &LAYOUTS {
        for (i, &(cells, lines)) in FITTING.iter().enumerate() {
            assert!(rt; fits_exactly(alloc, sizes, cells, lines)?, "{i}");
        }
    }
    Ok(())
}
