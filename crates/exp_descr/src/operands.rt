// The operands of a statement, by the shape of its macro.
ghost use Rattle.std.specs.Prelude.{◌≡◌, ◌∷◌, [], IsTrue};
ghost use Rattle.sil_macros.specs.OperandPlaces.{D, F, N};
ghost use Rattle.sil_model.specs.Fits.{fit};
ghost use Rattle.sil_model.specs.declared.program.Arg.TheVariants.{Flag, Number, Place};

use sil_model::Arg;

pub(crate) fn three_places(args: &[Arg]) -> (i64, i64, i64)
    requires { IsTrue (fit (D ∷ D ∷ D ∷ []) args.now) }
    ensures { args.now ≡ Place result.0 ∷ Place result.1 ∷ Place result.2 ∷ [] }
{
    match args {
        [Arg::Place(x1), Arg::Place(x2), Arg::Place(x3)] => (*x1, *x2, *x3),
        _ => unreachable!(),
    }
}

pub(crate) fn place_number(args: &[Arg]) -> (i64, i64)
    requires { IsTrue (fit (D ∷ N ∷ []) args.now) }
    ensures { args.now ≡ Place result.0 ∷ Number result.1 ∷ [] }
{
    match args {
        [Arg::Place(x1), Arg::Number(x2)] => (*x1, *x2),
        _ => unreachable!(),
    }
}

pub(crate) fn places_number(args: &[Arg]) -> (i64, i64, i64)
    requires { IsTrue (fit (D ∷ D ∷ N ∷ []) args.now) }
    ensures { args.now ≡ Place result.0 ∷ Place result.1 ∷ Number result.2 ∷ [] }
{
    match args {
        [Arg::Place(x1), Arg::Place(x2), Arg::Number(x3)] => (*x1, *x2, *x3),
        _ => unreachable!(),
    }
}

pub(crate) fn two_places(args: &[Arg]) -> (i64, i64)
    requires { IsTrue (fit (D ∷ D ∷ []) args.now) }
    ensures { args.now ≡ Place result.0 ∷ Place result.1 ∷ [] }
{
    match args {
        [Arg::Place(x1), Arg::Place(x2)] => (*x1, *x2),
        _ => unreachable!(),
    }
}

pub(crate) fn place_number_twice(args: &[Arg]) -> (i64, i64, i64, i64)
    requires { IsTrue (fit (D ∷ N ∷ D ∷ N ∷ []) args.now) }
    ensures { args.now ≡ Place result.0 ∷ Number result.1 ∷ Place result.2 ∷ Number result.3 ∷ [] }
{
    match args {
        [
            Arg::Place(x1),
            Arg::Number(x2),
            Arg::Place(x3),
            Arg::Number(x4),
        ] => (*x1, *x2, *x3, *x4),
        _ => unreachable!(),
    }
}

pub(crate) fn place_number_place(args: &[Arg]) -> (i64, i64, i64)
    requires { IsTrue (fit (D ∷ N ∷ D ∷ []) args.now) }
    ensures { args.now ≡ Place result.0 ∷ Number result.1 ∷ Place result.2 ∷ [] }
{
    match args {
        [Arg::Place(x1), Arg::Number(x2), Arg::Place(x3)] => (*x1, *x2, *x3),
        _ => unreachable!(),
    }
}

pub(crate) fn place_flag(args: &[Arg]) -> (i64, u32)
    requires { IsTrue (fit (D ∷ F ∷ []) args.now) }
    ensures { args.now ≡ Place result.0 ∷ Flag result.1 ∷ [] }
{
    match args {
        [Arg::Place(x1), Arg::Flag(x2)] => (*x1, *x2),
        _ => unreachable!(),
    }
}
