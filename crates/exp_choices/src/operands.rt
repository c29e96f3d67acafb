// The operands of a statement, by the shape of its macro.
ghost use Rattle.std.specs.Prelude.{◌≡◌, ◌∷◌, [], IsTrue};
ghost use Rattle.sil_macros.specs.OperandPlaces.{D, F, L, N, S};
ghost use Rattle.sil_model.specs.Fits.{fit};
ghost use Rattle.sil_model.specs.declared.program.Arg.TheVariants.{Flag, Goto, Number, Place};

use exp_common::{ByAnswer, ByOrder};
use sil_model::Arg;

pub(crate) fn places_order(args: &[Arg]) -> (i64, i64, ByOrder)
    requires { IsTrue (fit (D ∷ D ∷ L ∷ L ∷ L ∷ []) args.now) }
    ensures { args.now ≡ Place result.0 ∷ Place result.1 ∷ Goto result.2.greater ∷ Goto result.2.equal ∷ Goto result.2.less ∷ [] }
{
    match args {
        [
            Arg::Place(x1),
            Arg::Place(x2),
            Arg::Goto(greater),
            Arg::Goto(equal),
            Arg::Goto(less),
        ] => (
            *x1,
            *x2,
            ByOrder {
                greater: *greater,
                equal: *equal,
                less: *less,
            },
        ),
        _ => unreachable!(),
    }
}

pub(crate) fn specs_order(args: &[Arg]) -> (i64, i64, ByOrder)
    requires { IsTrue (fit (S ∷ S ∷ L ∷ L ∷ L ∷ []) args.now) }
    ensures { args.now ≡ Place result.0 ∷ Place result.1 ∷ Goto result.2.greater ∷ Goto result.2.equal ∷ Goto result.2.less ∷ [] }
{
    match args {
        [
            Arg::Place(x1),
            Arg::Place(x2),
            Arg::Goto(greater),
            Arg::Goto(equal),
            Arg::Goto(less),
        ] => (
            *x1,
            *x2,
            ByOrder {
                greater: *greater,
                equal: *equal,
                less: *less,
            },
        ),
        _ => unreachable!(),
    }
}

pub(crate) fn place_number_order(args: &[Arg]) -> (i64, i64, ByOrder)
    requires { IsTrue (fit (D ∷ N ∷ L ∷ L ∷ L ∷ []) args.now) }
    ensures { args.now ≡ Place result.0 ∷ Number result.1 ∷ Goto result.2.greater ∷ Goto result.2.equal ∷ Goto result.2.less ∷ [] }
{
    match args {
        [
            Arg::Place(x1),
            Arg::Number(x2),
            Arg::Goto(greater),
            Arg::Goto(equal),
            Arg::Goto(less),
        ] => (
            *x1,
            *x2,
            ByOrder {
                greater: *greater,
                equal: *equal,
                less: *less,
            },
        ),
        _ => unreachable!(),
    }
}

pub(crate) fn places_spec_order(args: &[Arg]) -> (i64, i64, i64, ByOrder)
    requires { IsTrue (fit (D ∷ D ∷ S ∷ L ∷ L ∷ L ∷ []) args.now) }
    ensures { args.now ≡ Place result.0 ∷ Place result.1 ∷ Place result.2 ∷ Goto result.3.greater ∷ Goto result.3.equal ∷ Goto result.3.less ∷ [] }
{
    match args {
        [
            Arg::Place(x1),
            Arg::Place(x2),
            Arg::Place(x3),
            Arg::Goto(greater),
            Arg::Goto(equal),
            Arg::Goto(less),
        ] => (
            *x1,
            *x2,
            *x3,
            ByOrder {
                greater: *greater,
                equal: *equal,
                less: *less,
            },
        ),
        _ => unreachable!(),
    }
}

pub(crate) fn place_number_place_order(args: &[Arg]) -> (i64, i64, i64, ByOrder)
    requires { IsTrue (fit (D ∷ N ∷ D ∷ L ∷ L ∷ L ∷ []) args.now) }
    ensures { args.now ≡ Place result.0 ∷ Number result.1 ∷ Place result.2 ∷ Goto result.3.greater ∷ Goto result.3.equal ∷ Goto result.3.less ∷ [] }
{
    match args {
        [
            Arg::Place(x1),
            Arg::Number(x2),
            Arg::Place(x3),
            Arg::Goto(greater),
            Arg::Goto(equal),
            Arg::Goto(less),
        ] => (
            *x1,
            *x2,
            *x3,
            ByOrder {
                greater: *greater,
                equal: *equal,
                less: *less,
            },
        ),
        _ => unreachable!(),
    }
}

pub(crate) fn places_answer(args: &[Arg]) -> (i64, i64, ByAnswer)
    requires { IsTrue (fit (D ∷ D ∷ L ∷ L ∷ []) args.now) }
    ensures { args.now ≡ Place result.0 ∷ Place result.1 ∷ Goto result.2.no ∷ Goto result.2.yes ∷ [] }
{
    match args {
        [
            Arg::Place(x1),
            Arg::Place(x2),
            Arg::Goto(no),
            Arg::Goto(yes),
        ] => (*x1, *x2, ByAnswer { no: *no, yes: *yes }),
        _ => unreachable!(),
    }
}

pub(crate) fn place_number_answer(args: &[Arg]) -> (i64, i64, ByAnswer)
    requires { IsTrue (fit (D ∷ N ∷ L ∷ L ∷ []) args.now) }
    ensures { args.now ≡ Place result.0 ∷ Number result.1 ∷ Goto result.2.no ∷ Goto result.2.yes ∷ [] }
{
    match args {
        [
            Arg::Place(x1),
            Arg::Number(x2),
            Arg::Goto(no),
            Arg::Goto(yes),
        ] => (*x1, *x2, ByAnswer { no: *no, yes: *yes }),
        _ => unreachable!(),
    }
}

pub(crate) fn spec_number_answer(args: &[Arg]) -> (i64, i64, ByAnswer)
    requires { IsTrue (fit (S ∷ N ∷ L ∷ L ∷ []) args.now) }
    ensures { args.now ≡ Place result.0 ∷ Number result.1 ∷ Goto result.2.no ∷ Goto result.2.yes ∷ [] }
{
    match args {
        [
            Arg::Place(x1),
            Arg::Number(x2),
            Arg::Goto(no),
            Arg::Goto(yes),
        ] => (*x1, *x2, ByAnswer { no: *no, yes: *yes }),
        _ => unreachable!(),
    }
}

pub(crate) fn place_numbers_answer(args: &[Arg]) -> (i64, i64, i64, ByAnswer)
    requires { IsTrue (fit (D ∷ N ∷ N ∷ L ∷ L ∷ []) args.now) }
    ensures { args.now ≡ Place result.0 ∷ Number result.1 ∷ Number result.2 ∷ Goto result.3.no ∷ Goto result.3.yes ∷ [] }
{
    match args {
        [
            Arg::Place(x1),
            Arg::Number(x2),
            Arg::Number(x3),
            Arg::Goto(no),
            Arg::Goto(yes),
        ] => (*x1, *x2, *x3, ByAnswer { no: *no, yes: *yes }),
        _ => unreachable!(),
    }
}

pub(crate) fn place_flag_answer(args: &[Arg]) -> (i64, u32, ByAnswer)
    requires { IsTrue (fit (D ∷ F ∷ L ∷ L ∷ []) args.now) }
    ensures { args.now ≡ Place result.0 ∷ Flag result.1 ∷ Goto result.2.no ∷ Goto result.2.yes ∷ [] }
{
    match args {
        [Arg::Place(x1), Arg::Flag(x2), Arg::Goto(no), Arg::Goto(yes)] => (
            *x1,
            *x2,
            ByAnswer { no: *no, yes: *yes },
        ),
        _ => unreachable!(),
    }
}

pub(crate) fn three_places_answer(args: &[Arg]) -> (i64, i64, i64, ByAnswer)
    requires { IsTrue (fit (D ∷ D ∷ D ∷ L ∷ L ∷ []) args.now) }
    ensures { args.now ≡ Place result.0 ∷ Place result.1 ∷ Place result.2 ∷ Goto result.3.no ∷ Goto result.3.yes ∷ [] }
{
    match args {
        [
            Arg::Place(x1),
            Arg::Place(x2),
            Arg::Place(x3),
            Arg::Goto(no),
            Arg::Goto(yes),
        ] => (*x1, *x2, *x3, ByAnswer { no: *no, yes: *yes }),
        _ => unreachable!(),
    }
}

pub(crate) fn places_number(args: &[Arg]) -> (i64, i64, i64)
    requires { IsTrue (fit (D ∷ D ∷ N ∷ []) args.now) }
    ensures { args.now ≡ Place result.0 ∷ Place result.1 ∷ Number result.2 ∷ [] }
{
    match args {
        [Arg::Place(x1), Arg::Place(x2), Arg::Number(x3)] => (*x1, *x2, *x3),
        _ => unreachable!(),
    }
}
