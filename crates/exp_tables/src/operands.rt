// The operands of a statement, by the shape of its macro.
ghost use Rattle.std.specs.Prelude.{◌≡◌, ◌<◌, ◌^◌, ◌∷◌, [], IsTrue};
ghost use Rattle.sil_macros.specs.OperandPlaces.{K, L, S, T};
ghost use Rattle.sil_model.specs.Fits.{fit};
ghost use Rattle.sil_model.specs.declared.program.Arg.TheVariants.{Goto, Key, Place, Table};
ghost use Rattle.exp_common.specs.Locations.{lead};

use exp_common::lead;
use sil_model::{Action, Arg};

/// The locations of a walk, each the number of a statement, or none for the next one: at an entry
/// with ERROR, where no character is left, and where it stops.
#[derive(Clone, Copy)]
pub struct ByWalk {
    pub error: Option<u32>,
    pub run_out: Option<u32>,
    pub stop: Option<u32>,
}

impl ByWalk {
    /// The statements that the locations of statement `k` lead to.
    pub fn statements(self, k: u32) -> (u32, u32, u32)
        requires { k < 2 ^ 31 }
        ensures error { result.0 ≡ lead k self.error }
        ensures run_out { result.1 ≡ lead k self.run_out }
        ensures stop { result.2 ≡ lead k self.stop }
    {
        (
            lead(k, self.error),
            lead(k, self.run_out),
            lead(k, self.stop),
        )
    }
}

pub(crate) fn table_key(args: &[Arg]) -> (u16, Action)
    requires { IsTrue (fit (T ∷ K ∷ []) args.now) }
    ensures { args.now ≡ Table result.0 ∷ Key result.1 ∷ [] }
{
    match args {
        [Arg::Table(t), Arg::Key(key)] => (*t, *key),
        _ => unreachable!(),
    }
}

pub(crate) fn table_key_spec(args: &[Arg]) -> (u16, Action, i64)
    requires { IsTrue (fit (T ∷ K ∷ S ∷ []) args.now) }
    ensures { args.now ≡ Table result.0 ∷ Key result.1 ∷ Place result.2 ∷ [] }
{
    match args {
        [Arg::Table(t), Arg::Key(key), Arg::Place(s)] => (*t, *key, *s),
        _ => unreachable!(),
    }
}

pub(crate) fn specs_table_walk(args: &[Arg]) -> (i64, i64, u16, ByWalk)
    requires { IsTrue (fit (S ∷ S ∷ T ∷ L ∷ L ∷ L ∷ []) args.now) }
    ensures { args.now ≡ Place result.0 ∷ Place result.1 ∷ Table result.2 ∷ Goto result.3.error ∷ Goto result.3.run_out ∷ Goto result.3.stop ∷ [] }
{
    match args {
        [
            Arg::Place(s1),
            Arg::Place(s2),
            Arg::Table(t),
            Arg::Goto(error),
            Arg::Goto(run_out),
            Arg::Goto(stop),
        ] => (
            *s1,
            *s2,
            *t,
            ByWalk {
                error: *error,
                run_out: *run_out,
                stop: *stop,
            },
        ),
        _ => unreachable!(),
    }
}
