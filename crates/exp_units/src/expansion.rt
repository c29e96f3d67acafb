// The expansion of a statement whose macro calls a unit.
ghost use Rattle.std.specs.Prelude.{◌≡◌, ◌*◌, ◌<◌, ◌≤◌, ◌^◌, All, OnOk, IsTrue, length};
ghost use Rattle.sil_macros.specs.MacroRows.{row};
ghost use Rattle.unit_clauses.specs.UnitTable.{unit_visits, unit_clause};
ghost use Rattle.sil_model.specs.Fits.{fit};
ghost use Rattle.sil_model.specs.Prints.{writes_records};
ghost use Rattle.sil_micro.specs.Expands.{Expands};
ghost use Rattle.sil_micro.specs.Pieces.{weights};
ghost use Rattle.exp_common.specs.Allowed.{HasFewItems};
ghost use Rattle.exp_units.specs.Group.{is_move, is_output};
ghost use Rattle.exp_units.specs.InFormats.{ExpandsIn, HasFormat};

use crate::moves::unit_move;
use crate::operands::{format, items, place_alone, unit};
use crate::output::output;
use sil_base::MAX_STATEMENTS;
use sil_macros::Macro;
use sil_micro::{Code, MAX_PIECE_WEIGHT, has_room};
use sil_model::{Specials, Statement};
use std::alloc::{AllocError, Global};

/// Whether a macro moves a unit.
pub fn is_move(name: Macro) -> bool
    ensures { result ≡ is_move name }
{
    matches!(name, Macro::Bkspce | Macro::Enfile | Macro::Rewind)
}

/// Whether a macro writes records by a format.
pub fn is_output(name: Macro) -> bool
    ensures { result ≡ is_output name }
{
    matches!(name, Macro::Output)
}

/// Expands statement number `at`, which moves a unit. After an error the code may have a part of the
/// statement's operations.
#[tactic(auto, unfolding(unit_clauses::specs::UnitTable::unit_clause))]
pub fn expand_move(
    alloc: Global,
    statement: &Statement,
    at: u32,
    specials: &Specials,
    code: &mut Code,
) -> Result<(), AllocError>
    requires group { IsTrue (is_move statement.now.name) }
    requires fits { IsTrue (fit (row statement.now.name).places statement.now.args) }
    requires number { at < length code.old.entries }
    requires few { length code.old.entries ≤ MAX_STATEMENTS }
    requires light { weights code.old.ops ≤ MAX_PIECE_WEIGHT * at }
    ensures { OnOk result (Expands code.old code.new at specials.now statement.now.args (unit_clause statement.now.name) (unit_visits statement.now.name) (writes_records statement.now.name)) }
{
    let _ = alloc;
    has_room(code, at);
    let args = statement.args.items();
    match statement.name {
        Macro::Bkspce => unit_move(code, at, specials, 5, place_alone(args)),
        Macro::Enfile => unit_move(code, at, specials, 6, place_alone(args)),
        Macro::Rewind => unit_move(code, at, specials, 4, place_alone(args)),
        _ => unreachable!(),
    }
}

/// Expands statement number `at`, an OUTPUT. After an error the code may have a part of the
/// statement's operations.
#[tactic(auto, unfolding(unit_clauses::specs::UnitTable::unit_clause))]
pub fn expand_output(
    alloc: Global,
    statement: &Statement,
    at: u32,
    specials: &Specials,
    code: &mut Code,
) -> Result<(), AllocError>
    requires group { IsTrue (is_output statement.now.name) }
    requires fits { IsTrue (fit (row statement.now.name).places statement.now.args) }
    requires items { All HasFewItems statement.now.args }
    requires formats { All (HasFormat code.old.formats) statement.now.args }
    requires few_formats { length code.old.formats < 2 ^ 32 }
    requires number { at < length code.old.entries }
    requires few { length code.old.entries ≤ MAX_STATEMENTS }
    requires light { weights code.old.ops ≤ MAX_PIECE_WEIGHT * at }
    ensures { OnOk result (ExpandsIn code.old code.new at specials.now statement.now.args (unit_clause statement.now.name) (unit_visits statement.now.name) (writes_records statement.now.name)) }
{
    let _ = alloc;
    has_room(code, at);
    let args = statement.args.items();
    output(code, at, specials, unit(args), format(args), items(args))
}
