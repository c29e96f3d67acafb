// Macros over a cell of characters: its fields aren't read or written, and a whole write makes it a
// descriptor.
use crate::row::Op::{D, F, N};
use crate::row::{CELL, Op, arg_of, perform};
use layout_params::{Descr, STANDARD_PARAMS, read_params};
use sil_macros::Macro;
use sil_model::{Cells, Flow, limits_of, set_a_field};
use std::alloc::Global;
use std::test::Fail;

/// A macro with its operands, and the descriptor that cell 3 is after it, or none where the macro
/// is undefined. Cell 0 holds (-1, 0, 0), cell 1 zeros, and cell 3 the characters AB.
pub static CHARACTERS: [(Macro, &[Op], Option<Descr>); 18] = [
    (Macro::Movd, &[D(0), D(3)], None),
    (Macro::Mova, &[D(0), D(3)], None),
    (Macro::Movv, &[D(0), D(3)], None),
    (Macro::Setav, &[D(0), D(3)], None),
    (Macro::Setva, &[D(0), D(3)], None),
    (Macro::Endex, &[D(3)], None),
    (Macro::Incra, &[D(3), N(1)], None),
    (Macro::Decra, &[D(3), N(1)], None),
    (Macro::Incrv, &[D(3), N(1)], None),
    (Macro::Setac, &[D(3), N(1)], None),
    (Macro::Setvc, &[D(3), N(1)], None),
    (Macro::Mova, &[D(3), D(1)], None),
    (Macro::Movv, &[D(3), D(1)], None),
    (Macro::Setva, &[D(3), D(1)], None),
    (Macro::Setf, &[D(3), F(1)], None),
    (Macro::Resetf, &[D(3), F(1)], None),
    (
        Macro::Movd,
        &[D(3), D(0)],
        Some(Descr { a: -1, f: 0, v: 0 }),
    ),
    (
        Macro::Setav,
        &[D(3), D(0)],
        Some(Descr { a: 0, f: 0, v: 0 }),
    ),
];

fn is_as_expected(cells: &Cells, flow: Option<Flow>, expected: Option<Descr>) -> bool {
    let at = CELL + 48;
    match expected {
        Some(descr) => flow == Some(Flow::Next) && cells.descr(at) == Some(descr),
        None => {
            flow.is_none()
                && cells.descr(at).is_none()
                && cells.char_at(at) == Some(b'A')
                && cells.char_at(CELL + 49) == Some(b'B')
                && cells.char_at(CELL + 50) == Some(0)
        }
    }
}

/// Whether the macro of a row does what the row says.
pub fn holds_over_characters(
    alloc: Global,
    name: Macro,
    ops: &[Op],
    expected: Option<Descr>,
) -> Result<bool, Fail> {
    let limits = limits_of(&read_params(alloc, STANDARD_PARAMS)?);
    let mut cells = Cells::new(alloc, limits, &[], 4)?;
    let mut args = Vec::new(alloc);
    for &op in ops {
        args.push(arg_of(op))?;
    }
    let first = set_a_field(&mut cells, CELL, -1);
    let second = cells.set_char(CELL + 48, b'A');
    let third = cells.set_char(CELL + 49, b'B');
    let is_set = first.is_some() && second.is_some() && third.is_some();
    let flow = perform(name, &args, &mut cells);
    Ok(is_set && is_as_expected(&cells, flow, expected))
}
