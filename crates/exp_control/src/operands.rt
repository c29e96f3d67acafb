// The operands of a statement, by the shape of its macro.
ghost use Rattle.std.specs.Prelude.{◌≡◌, ◌∷◌, [], Some, IsTrue};
ghost use Rattle.sil_macros.specs.OperandPlaces.{D, E, L, N, R, S, maybe};
ghost use Rattle.sil_model.specs.Fits.{fit};
ghost use Rattle.sil_model.specs.declared.program.Arg.TheVariants.{Absent, Goto, Number, Place};

use sil_model::Arg;

pub(crate) fn place_alone(args: &[Arg]) -> i64
    requires { IsTrue (fit (D ∷ []) args.now) }
    ensures { args.now ≡ Place result ∷ [] }
{
    match args {
        [Arg::Place(d)] => *d,
        _ => unreachable!(),
    }
}

pub(crate) fn place_number(args: &[Arg]) -> (i64, i64)
    requires { IsTrue (fit (D ∷ N ∷ []) args.now) }
    ensures { args.now ≡ Place result.0 ∷ Number result.1 ∷ [] }
{
    match args {
        [Arg::Place(d), Arg::Number(n)] => (*d, *n),
        _ => unreachable!(),
    }
}

pub(crate) fn location(args: &[Arg]) -> u32
    requires { IsTrue (fit (R ∷ maybe E ∷ []) args.now) }
    ensures { args.now ≡ Goto (Some result) ∷ Absent ∷ [] }
{
    match args {
        [Arg::Goto(Some(to)), Arg::Absent] => *to,
        _ => unreachable!(),
    }
}

pub(crate) fn places_locations(args: &[Arg]) -> ((i64, i64, i64), Option<u32>, Option<u32>)
    requires { IsTrue (fit (D ∷ S ∷ S ∷ L ∷ L ∷ []) args.now) }
    ensures { args.now ≡ Place result.0.0 ∷ Place result.0.1 ∷ Place result.0.2 ∷ Goto result.1 ∷ Goto result.2 ∷ [] }
{
    match args {
        [
            Arg::Place(d),
            Arg::Place(s1),
            Arg::Place(s2),
            Arg::Goto(failure),
            Arg::Goto(success),
        ] => ((*d, *s1, *s2), *failure, *success),
        _ => unreachable!(),
    }
}
