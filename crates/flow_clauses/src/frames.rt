// Frames of calls.
ghost use Rattle.std.specs.Prelude.{◌≡◌, ◌+◌, ◌≤◌, ◌∷◌, length, All};
ghost use Rattle.sil_model.specs.Access.{written, integer_alone};
ghost use Rattle.sil_model.specs.Integers.{◌⊞◌};
ghost use Rattle.sil_model.specs.Lists.{all_written, line};
ghost use Rattle.sil_model.specs.Memory.{FitsDescr, SameShape};
ghost use Rattle.flow_clauses.specs.StackClauses.{step_up};

use crate::lists::{line, write_all};
use crate::stack::{step_up, sum};
use layout_params::Descr;
use sil_base::MAX_LIST_ITEMS;
use sil_model::Cells;

/// Writes two integers and the arguments to the cells above the top.
pub fn write_frame(
    cells: &mut Cells,
    top: i64,
    saved: i64,
    entry: i64,
    arguments: &[Descr],
) -> Option<()>
    requires few { length arguments.now ≤ MAX_LIST_ITEMS }
    requires fits { All (FitsDescr cells.old.limits) arguments.now }
    ensures writes { all_written cells.old (line (top ⊞ step_up cells.old) (step_up cells.old) (2 + length arguments.now)) (integer_alone saved ∷ integer_alone entry ∷ arguments.now) ≡ written result cells.new }
    ensures keeps { SameShape cells.old cells.new }
{
    let step = step_up(cells);
    let first = sum(top, step);
    let second = sum(first, step);
    let places = line(sum(second, step), step, arguments.len());
    cells.set_descr(
        first,
        Descr {
            a: saved,
            f: 0,
            v: 0,
        },
    )?;
    cells.set_descr(
        second,
        Descr {
            a: entry,
            f: 0,
            v: 0,
        },
    )?;
    write_all(cells, &places[..arguments.len()], arguments)
}
