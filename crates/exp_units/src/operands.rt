// The operands of a statement, by the shape of its macro.
ghost use Rattle.std.specs.Prelude.{◌≡◌, ◌≤◌, ◌∷◌, [], All, Contains, Some, IsTrue, length};
ghost use Rattle.sil_macros.specs.OperandPlaces.{D, DD, M, maybe};
ghost use Rattle.sil_model.specs.Arguments.{format_at, maybe_places_at, place_at};
ghost use Rattle.sil_model.specs.Fits.{fit};
ghost use Rattle.sil_model.specs.declared.program.Arg.TheVariants.{Place};
ghost use Rattle.exp_common.specs.Allowed.{HasFewItems};

use sil_base::Record;
use sil_model::Arg;

pub(crate) fn place_alone(args: &[Arg]) -> i64
    requires { IsTrue (fit (D ∷ []) args.now) }
    ensures { args.now ≡ Place result ∷ [] }
{
    match args {
        [Arg::Place(d)] => *d,
        _ => unreachable!(),
    }
}

/// The place of the descriptor that names the unit.
pub(crate) fn unit(args: &[Arg]) -> i64
    requires { IsTrue (fit (D ∷ M ∷ maybe DD ∷ []) args.now) }
    ensures { place_at args.now 0 ≡ Some result }
{
    match args {
        [Arg::Place(d), _, _] => *d,
        _ => unreachable!(),
    }
}

/// The text of the format.
pub(crate) fn format(args: &[Arg]) -> &Record
    requires { IsTrue (fit (D ∷ M ∷ maybe DD ∷ []) args.now) }
    ensures { format_at args.now 1 ≡ Some result.now }
{
    match args {
        [_, Arg::Format(text), _] => text,
        _ => unreachable!(),
    }
}

/// The places of the items.
pub(crate) fn items(args: &[Arg]) -> &[i64]
    requires shape { IsTrue (fit (D ∷ M ∷ maybe DD ∷ []) args.now) }
    requires items { All HasFewItems args.now }
    ensures value { maybe_places_at args.now 2 ≡ Some result.now }
    ensures few { length result.now ≤ 40 }
{
    match args {
        [_, _, Arg::Places(places)] => places.items(),
        [_, _, Arg::Absent] => &[],
        _ => unreachable!(),
    }
}
