// The operands of a statement, by the shape of its macro.
ghost use Rattle.std.specs.Prelude.{◌≡◌, ◌∷◌, [], IsTrue};
ghost use Rattle.sil_macros.specs.OperandPlaces.{D, L};
ghost use Rattle.sil_model.specs.Fits.{fit};
ghost use Rattle.sil_model.specs.declared.program.Arg.TheVariants.{Goto, Place};

use exp_common::ByAnswer;
use sil_model::Arg;

pub(crate) fn three_places_answer(args: &[Arg]) -> (i64, i64, i64, ByAnswer)
    requires { IsTrue (fit (D ∷ D ∷ D ∷ L ∷ L ∷ []) args.now) }
    ensures { args.now ≡ Place result.0 ∷ Place result.1 ∷ Place result.2 ∷ Goto result.3.no ∷ Goto result.3.yes ∷ [] }
{
    match args {
        [
            Arg::Place(d1),
            Arg::Place(d2),
            Arg::Place(d3),
            Arg::Goto(no),
            Arg::Goto(yes),
        ] => (*d1, *d2, *d3, ByAnswer { no: *no, yes: *yes }),
        _ => unreachable!(),
    }
}
