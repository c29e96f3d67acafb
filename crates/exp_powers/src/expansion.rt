// The expansion of a statement whose macro raises an integer to a power.
ghost use Rattle.std.specs.Prelude.{◌≡◌, ◌*◌, ◌<◌, ◌≤◌, All, OnOk, IsTrue, length};
ghost use Rattle.sil_macros.specs.MacroRows.{row};
ghost use Rattle.tree_clauses.specs.TreeTable.{tree_clause, tree_visits};
ghost use Rattle.sil_model.specs.Fits.{fit};
ghost use Rattle.sil_model.specs.Prints.{writes_records};
ghost use Rattle.sil_micro.specs.Expands.{Expands};
ghost use Rattle.sil_micro.specs.Pieces.{weights};
ghost use Rattle.exp_powers.specs.Group.{is_power};
ghost use Rattle.exp_common.specs.Locations.{LocatesWithin};

use crate::operands::three_places_answer;
use crate::powers::expint;
use sil_base::MAX_STATEMENTS;
use sil_macros::Macro;
use sil_micro::{Code, MAX_PIECE_WEIGHT, has_room};
use sil_model::{Specials, Statement};
use std::alloc::{AllocError, Global};

/// Whether a macro raises an integer to a power.
pub fn is_power(name: Macro) -> bool
    ensures { result ≡ is_power name }
{
    matches!(name, Macro::Expint)
}

/// Expands statement number `at`. After an error the code may have a part of the statement's
/// operations.
pub fn expand_power(
    alloc: Global,
    statement: &Statement,
    at: u32,
    specials: &Specials,
    code: &mut Code,
) -> Result<(), AllocError>
    requires group { IsTrue (is_power statement.now.name) }
    requires fits { IsTrue (fit (row statement.now.name).places statement.now.args) }
    requires locations { All (LocatesWithin (length code.old.entries)) statement.now.args }
    requires number { at < length code.old.entries }
    requires few { length code.old.entries ≤ MAX_STATEMENTS }
    requires light { weights code.old.ops ≤ MAX_PIECE_WEIGHT * at }
    ensures { OnOk result (Expands code.old code.new at specials.now statement.now.args (tree_clause statement.now.name) (tree_visits statement.now.name) (writes_records statement.now.name)) }
{
    let _ = alloc;
    has_room(code, at);
    let args = statement.args.items();
    match statement.name {
        Macro::Expint => {
            let (d1, d2, d3, to) = three_places_answer(args);
            expint(code, at, specials, d1, d2, d3, to)
        }
        _ => unreachable!(),
    }
}
