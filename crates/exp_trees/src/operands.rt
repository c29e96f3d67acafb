// The operands of a statement, by the shape of its macro.
ghost use Rattle.std.specs.Prelude.{◌≡◌, ◌∷◌, [], IsTrue};
ghost use Rattle.sil_macros.specs.OperandPlaces.{D, maybe};
ghost use Rattle.sil_model.specs.Fits.{fit};
ghost use Rattle.sil_model.specs.declared.program.Arg.TheVariants.{Place};
ghost use Rattle.exp_trees.specs.NodeOperands.{place_or_null};

use sil_model::Arg;

pub(crate) fn two_descrs(args: &[Arg]) -> (i64, i64)
    requires { IsTrue (fit (D ∷ D ∷ []) args.now) }
    ensures { args.now ≡ Place result.0 ∷ Place result.1 ∷ [] }
{
    match args {
        [Arg::Place(x1), Arg::Place(x2)] => (*x1, *x2),
        _ => unreachable!(),
    }
}

pub(crate) fn node_descrs(args: &[Arg]) -> (i64, i64, i64, i64, i64, Option<i64>)
    requires { IsTrue (fit (D ∷ D ∷ D ∷ D ∷ D ∷ maybe D ∷ []) args.now) }
    ensures { args.now ≡ Place result.0 ∷ Place result.1 ∷ Place result.2 ∷ Place result.3 ∷ Place result.4 ∷ place_or_null result.5 ∷ [] }
{
    match args {
        [
            Arg::Place(x1),
            Arg::Place(x2),
            Arg::Place(x3),
            Arg::Place(x4),
            Arg::Place(x5),
            x6,
        ] => (*x1, *x2, *x3, *x4, *x5, maybe_place(x6)),
        _ => unreachable!(),
    }
}

fn maybe_place(arg: &Arg) -> Option<i64>
    requires { IsTrue (fit (maybe D ∷ []) (arg.now ∷ [])) }
    ensures { arg.now ≡ place_or_null result }
{
    match arg {
        Arg::Place(at) => Some(*at),
        Arg::Absent => None,
        _ => unreachable!(),
    }
}
