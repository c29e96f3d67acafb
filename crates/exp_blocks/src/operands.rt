// The operands of a statement, by the shape of its macro.
ghost use Rattle.std.specs.Prelude.{◌≡◌, ◌∷◌, [], IsTrue};
ghost use Rattle.sil_macros.specs.OperandPlaces.{D};
ghost use Rattle.sil_model.specs.Fits.{fit};
ghost use Rattle.sil_model.specs.declared.program.Arg.TheVariants.{Place};

use sil_model::Arg;

pub(crate) fn three_places(args: &[Arg]) -> (i64, i64, i64)
    requires { IsTrue (fit (D ∷ D ∷ D ∷ []) args.now) }
    ensures { args.now ≡ Place result.0 ∷ Place result.1 ∷ Place result.2 ∷ [] }
{
    match args {
        [Arg::Place(d1), Arg::Place(d2), Arg::Place(d3)] => (*d1, *d2, *d3),
        _ => unreachable!(),
    }
}
