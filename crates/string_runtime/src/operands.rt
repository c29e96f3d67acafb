// The operands of a statement, by the shape of its macro.
ghost use Rattle.std.specs.Prelude.{◌≡◌, ◌∷◌, [], IsTrue};
ghost use Rattle.sil_macros.specs.OperandPlaces.{D, L, S};
ghost use Rattle.sil_model.specs.Fits.{fit};
ghost use Rattle.sil_model.specs.declared.program.Arg.TheVariants.{Goto, Place};

use exp_common::{ByAnswer, ByOrder};
use sil_model::Arg;

pub(crate) fn one_spec(args: &[Arg]) -> i64
    requires { IsTrue (fit (S ∷ []) args.now) }
    ensures { args.now ≡ Place result ∷ [] }
{
    match args {
        [Arg::Place(s)] => *s,
        _ => unreachable!(),
    }
}

pub(crate) fn two_specs(args: &[Arg]) -> (i64, i64)
    requires { IsTrue (fit (S ∷ S ∷ []) args.now) }
    ensures { args.now ≡ Place result.0 ∷ Place result.1 ∷ [] }
{
    match args {
        [Arg::Place(s1), Arg::Place(s2)] => (*s1, *s2),
        _ => unreachable!(),
    }
}

pub(crate) fn three_specs(args: &[Arg]) -> (i64, i64, i64)
    requires { IsTrue (fit (S ∷ S ∷ S ∷ []) args.now) }
    ensures { args.now ≡ Place result.0 ∷ Place result.1 ∷ Place result.2 ∷ [] }
{
    match args {
        [Arg::Place(s1), Arg::Place(s2), Arg::Place(s3)] => (*s1, *s2, *s3),
        _ => unreachable!(),
    }
}

pub(crate) fn descr_spec(args: &[Arg]) -> (i64, i64)
    requires { IsTrue (fit (D ∷ S ∷ []) args.now) }
    ensures { args.now ≡ Place result.0 ∷ Place result.1 ∷ [] }
{
    match args {
        [Arg::Place(d), Arg::Place(s)] => (*d, *s),
        _ => unreachable!(),
    }
}

pub(crate) fn spec_descr(args: &[Arg]) -> (i64, i64)
    requires { IsTrue (fit (S ∷ D ∷ []) args.now) }
    ensures { args.now ≡ Place result.0 ∷ Place result.1 ∷ [] }
{
    match args {
        [Arg::Place(s), Arg::Place(d)] => (*s, *d),
        _ => unreachable!(),
    }
}

pub(crate) fn descr_spec_answer(args: &[Arg]) -> (i64, i64, ByAnswer)
    requires { IsTrue (fit (D ∷ S ∷ L ∷ L ∷ []) args.now) }
    ensures { args.now ≡ Place result.0 ∷ Place result.1 ∷ Goto result.2.no ∷ Goto result.2.yes ∷ [] }
{
    match args {
        [Arg::Place(d), Arg::Place(s), Arg::Goto(no), Arg::Goto(yes)] => (
            *d,
            *s,
            ByAnswer { no: *no, yes: *yes },
        ),
        _ => unreachable!(),
    }
}

pub(crate) fn spec_descr_answer(args: &[Arg]) -> (i64, i64, ByAnswer)
    requires { IsTrue (fit (S ∷ D ∷ L ∷ L ∷ []) args.now) }
    ensures { args.now ≡ Place result.0 ∷ Place result.1 ∷ Goto result.2.no ∷ Goto result.2.yes ∷ [] }
{
    match args {
        [Arg::Place(s), Arg::Place(d), Arg::Goto(no), Arg::Goto(yes)] => (
            *s,
            *d,
            ByAnswer { no: *no, yes: *yes },
        ),
        _ => unreachable!(),
    }
}

pub(crate) fn specs_order(args: &[Arg]) -> (i64, i64, ByOrder)
    requires { IsTrue (fit (S ∷ S ∷ L ∷ L ∷ L ∷ []) args.now) }
    ensures { args.now ≡ Place result.0 ∷ Place result.1 ∷ Goto result.2.greater ∷ Goto result.2.equal ∷ Goto result.2.less ∷ [] }
{
    match args {
        [
            Arg::Place(x1),
            Arg::Place(x2),
            Arg::Goto(greater),
            Arg::Goto(equal),
            Arg::Goto(less),
        ] => (
            *x1,
            *x2,
            ByOrder {
                greater: *greater,
                equal: *equal,
                less: *less,
            },
        ),
        _ => unreachable!(),
    }
}
