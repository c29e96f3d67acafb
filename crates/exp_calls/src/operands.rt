// The operands of a call.
ghost use Rattle.std.specs.Prelude.{◌≡◌, ◌≤◌, ◌∷◌, [], All, Some, IsTrue, length};
ghost use Rattle.sil_macros.specs.OperandPlaces.{D, DD, LL, R, maybe};
ghost use Rattle.sil_model.specs.Arguments.{goto_at, gotos_at, maybe_place_at, maybe_places_at};
ghost use Rattle.sil_model.specs.Fits.{fit};
ghost use Rattle.sil_model.specs.declared.program.Flow.TheVariants.{To};
ghost use Rattle.exp_common.specs.Allowed.{HasFewItems};

use sil_model::Arg;

/// The place that a return's descriptor goes to.
pub(crate) fn descriptor(args: &[Arg]) -> Option<i64>
    requires { IsTrue (fit (maybe D ∷ R ∷ maybe DD ∷ LL ∷ []) args.now) }
    ensures { maybe_place_at args.now 0 ≡ Some result }
{
    match args {
        [Arg::Place(d), _, _, _] => Some(*d),
        [Arg::Absent, _, _, _] => None,
        _ => unreachable!(),
    }
}

/// The statement where the procedure begins.
pub(crate) fn procedure(args: &[Arg]) -> u32
    requires { IsTrue (fit (maybe D ∷ R ∷ maybe DD ∷ LL ∷ []) args.now) }
    ensures { goto_at args.now 1 ≡ Some (To result) }
{
    match args {
        [_, Arg::Goto(Some(to)), _, _] => *to,
        _ => unreachable!(),
    }
}

/// The places of the arguments.
pub(crate) fn arguments(args: &[Arg]) -> &[i64]
    requires shape { IsTrue (fit (maybe D ∷ R ∷ maybe DD ∷ LL ∷ []) args.now) }
    requires items { All HasFewItems args.now }
    ensures value { maybe_places_at args.now 2 ≡ Some result.now }
    ensures few { length result.now ≤ 40 }
{
    match args {
        [_, _, Arg::Places(places), _] => places.items(),
        [_, _, Arg::Absent, _] => &[],
        _ => unreachable!(),
    }
}

/// The locations that a return may go to.
pub(crate) fn locations(args: &[Arg]) -> &[Option<u32>]
    requires shape { IsTrue (fit (maybe D ∷ R ∷ maybe DD ∷ LL ∷ []) args.now) }
    requires items { All HasFewItems args.now }
    ensures value { gotos_at args.now 3 ≡ Some result.now }
    ensures few { length result.now ≤ 40 }
{
    match args {
        [_, _, _, Arg::Gotos(locations)] => locations.items(),
        _ => unreachable!(),
    }
}
