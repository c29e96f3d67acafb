// Descriptors that macros make of an integer.
ghost use Rattle.std.specs.Prelude.{◌≡◌};
ghost use Rattle.layout_params.specs.declared.cell.Cell.TheVariants as cell;
ghost use Rattle.choice_clauses.specs.IntegerClauses.{deliver};
ghost use Rattle.sil_model.specs.Memory.{FitsCell};
ghost use Rattle.sil_model.specs.Effects.{after_flow};

use layout_params::Descr;
use sil_model::{Cells, Flow};

/// Makes the cell at an address the integer with the F and V of a descriptor, and goes to the
/// second location; where there is no integer, only goes to the first.
pub(crate) fn deliver(
    cells: &mut Cells,
    at: i64,
    like: &Descr,
    integer: Option<i64>,
    failure: Flow,
    success: Flow,
) -> Option<Flow>
    requires { FitsCell cells.old.limits (cell.Descr like.now) }
    ensures { deliver cells.old at like.now integer failure success ≡ after_flow result cells.new }
{
    match integer {
        None => Some(failure),
        Some(a) => {
            cells.set_descr(
                at,
                Descr {
                    a,
                    f: like.f,
                    v: like.v,
                },
            )?;
            Some(success)
        }
    }
}
