// The operands of macros over four cells of the standard layout, and what the macros do.
use descr_clauses::{
    decra, incra, incrv, mova, movd, movv, resetf, setac, setav, setf, setva, setvc,
};
use flow_clauses::endex;
use sil_base::FIRST_CELL;
use sil_macros::Macro;
use sil_model::{Arg, Cells, Flow};

/// The address of cell 0.
pub const CELL: i64 = FIRST_CELL as i64;

/// An operand: the place of a cell by its number, a number or a flag.
#[derive(Clone, Copy)]
pub enum Op {
    D(u8),
    N(i64),
    F(u32),
}

/// The operand as statements have it.
pub fn arg_of(op: Op) -> Arg {
    match op {
        Op::D(cell) => Arg::Place(CELL + 16 * i64::from(cell)),
        Op::N(n) => Arg::Number(n),
        Op::F(flags) => Arg::Flag(flags),
    }
}

/// What a macro of the rows does.
pub fn perform(name: Macro, args: &[Arg], cells: &mut Cells) -> Option<Flow> {
    match name {
        Macro::Decra => decra(args, cells),
        Macro::Endex => endex(args, cells),
        Macro::Incra => incra(args, cells),
        Macro::Incrv => incrv(args, cells),
        Macro::Mova => mova(args, cells),
        Macro::Movd => movd(args, cells),
        Macro::Movv => movv(args, cells),
        Macro::Resetf => resetf(args, cells),
        Macro::Setac => setac(args, cells),
        Macro::Setav => setav(args, cells),
        Macro::Setf => setf(args, cells),
        Macro::Setva => setva(args, cells),
        Macro::Setvc => setvc(args, cells),
        _ => None,
    }
}
