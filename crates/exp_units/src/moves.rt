// Moves of units.
ghost use Rattle.std.specs.Prelude.{ℕ, ◌+◌, ◌<◌, ◌^◌, ◌∷◌, [], OnOk, IsTrue, false, length};
ghost use Rattle.sil_model.specs.Sites.{Site};
ghost use Rattle.sil_model.specs.States.{State};
ghost use Rattle.sil_model.specs.declared.program.Arg.TheVariants.{Place};
ghost use Rattle.sil_micro.specs.Expands.{Expands};
ghost use Rattle.exp_units.specs.UnitMoves.{move_by, moves_unit};

use crate::calls::{append_call, append_head};
use sil_micro::{Code, Text, Values};
use sil_model::Specials;
use std::alloc::AllocError;

/// `REWIND D`, `BKSPCE D` and `ENFILE D`, by the number of the call: unit D.A is moved.
pub(crate) fn unit_move(
    code: &mut Code,
    k: u32,
    specials: &Specials,
    call: u8,
    d: i64,
) -> Result<(), AllocError>
    requires statement { k < length code.old.entries }
    requires room { length code.old.ops + 1500 < 2 ^ 32 }
    requires moves { IsTrue (moves_unit call) }
    ensures { OnOk result ((visits : Site → State → ℕ) → Expands code.old code.new k specials.now (Place d ∷ []) (move_by call) visits false) }
{
    code.begin_statement(k);
    append_head(code, k, d)?;
    append_call(code, call, Text::None, Values::None)?;
    Ok(())
}
