// The operands of a statement, by the shape of its macro.
ghost use Rattle.std.specs.Prelude.{◌≡◌, ◌∷◌, [], IsTrue};
ghost use Rattle.sil_macros.specs.OperandPlaces.{D, L, N, S};
ghost use Rattle.sil_model.specs.Fits.{fit};
ghost use Rattle.sil_model.specs.declared.program.Arg.TheVariants.{Goto, Number, Place};

use exp_common::ByAnswer;
use sil_model::Arg;

pub(crate) fn spec_descr(args: &[Arg]) -> (i64, i64)
    requires { IsTrue (fit (S ∷ D ∷ []) args.now) }
    ensures { args.now ≡ Place result.0 ∷ Place result.1 ∷ [] }
{
    match args {
        [Arg::Place(x1), Arg::Place(x2)] => (*x1, *x2),
        _ => unreachable!(),
    }
}

pub(crate) fn two_descrs(args: &[Arg]) -> (i64, i64)
    requires { IsTrue (fit (D ∷ D ∷ []) args.now) }
    ensures { args.now ≡ Place result.0 ∷ Place result.1 ∷ [] }
{
    match args {
        [Arg::Place(x1), Arg::Place(x2)] => (*x1, *x2),
        _ => unreachable!(),
    }
}

pub(crate) fn spec_number(args: &[Arg]) -> (i64, i64)
    requires { IsTrue (fit (S ∷ N ∷ []) args.now) }
    ensures { args.now ≡ Place result.0 ∷ Number result.1 ∷ [] }
{
    match args {
        [Arg::Place(x1), Arg::Number(x2)] => (*x1, *x2),
        _ => unreachable!(),
    }
}

pub(crate) fn descr_spec(args: &[Arg]) -> (i64, i64)
    requires { IsTrue (fit (D ∷ S ∷ []) args.now) }
    ensures { args.now ≡ Place result.0 ∷ Place result.1 ∷ [] }
{
    match args {
        [Arg::Place(x1), Arg::Place(x2)] => (*x1, *x2),
        _ => unreachable!(),
    }
}

pub(crate) fn spec_descr_number(args: &[Arg]) -> (i64, i64, i64)
    requires { IsTrue (fit (S ∷ D ∷ N ∷ []) args.now) }
    ensures { args.now ≡ Place result.0 ∷ Place result.1 ∷ Number result.2 ∷ [] }
{
    match args {
        [Arg::Place(x1), Arg::Place(x2), Arg::Number(x3)] => (*x1, *x2, *x3),
        _ => unreachable!(),
    }
}

pub(crate) fn descr_number_spec(args: &[Arg]) -> (i64, i64, i64)
    requires { IsTrue (fit (D ∷ N ∷ S ∷ []) args.now) }
    ensures { args.now ≡ Place result.0 ∷ Number result.1 ∷ Place result.2 ∷ [] }
{
    match args {
        [Arg::Place(x1), Arg::Number(x2), Arg::Place(x3)] => (*x1, *x2, *x3),
        _ => unreachable!(),
    }
}

pub(crate) fn two_specs(args: &[Arg]) -> (i64, i64)
    requires { IsTrue (fit (S ∷ S ∷ []) args.now) }
    ensures { args.now ≡ Place result.0 ∷ Place result.1 ∷ [] }
{
    match args {
        [Arg::Place(x1), Arg::Place(x2)] => (*x1, *x2),
        _ => unreachable!(),
    }
}

pub(crate) fn three_specs(args: &[Arg]) -> (i64, i64, i64)
    requires { IsTrue (fit (S ∷ S ∷ S ∷ []) args.now) }
    ensures { args.now ≡ Place result.0 ∷ Place result.1 ∷ Place result.2 ∷ [] }
{
    match args {
        [Arg::Place(x1), Arg::Place(x2), Arg::Place(x3)] => (*x1, *x2, *x3),
        _ => unreachable!(),
    }
}

pub(crate) fn three_specs_answer(args: &[Arg]) -> (i64, i64, i64, ByAnswer)
    requires { IsTrue (fit (S ∷ S ∷ S ∷ L ∷ L ∷ []) args.now) }
    ensures { args.now ≡ Place result.0 ∷ Place result.1 ∷ Place result.2 ∷ Goto result.3.no ∷ Goto result.3.yes ∷ [] }
{
    match args {
        [
            Arg::Place(x1),
            Arg::Place(x2),
            Arg::Place(x3),
            Arg::Goto(no),
            Arg::Goto(yes),
        ] => (*x1, *x2, *x3, ByAnswer { no: *no, yes: *yes }),
        _ => unreachable!(),
    }
}
