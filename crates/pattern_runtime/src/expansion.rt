// The expansion of a statement whose macro follows, searches or copies a pattern or a block.
ghost use Rattle.std.specs.Prelude.{◌≡◌, ◌*◌, ◌<◌, ◌≤◌, All, OnOk, IsTrue, length};
ghost use Rattle.sil_macros.specs.MacroRows.{row};
ghost use Rattle.tree_clauses.specs.TreeTable.{tree_clause, tree_visits};
ghost use Rattle.sil_model.specs.Fits.{fit};
ghost use Rattle.sil_model.specs.Prints.{writes_records};
ghost use Rattle.sil_micro.specs.Expands.{Expands};
ghost use Rattle.sil_micro.specs.Pieces.{weights};
ghost use Rattle.pattern_runtime.specs.Group.{is_pattern};
ghost use Rattle.exp_common.specs.Locations.{LocatesWithin};

use crate::chains::{linkor, lvalue};
use crate::copies::cpypat;
use crate::operands::{six_places, three_places_answer, two_places};
use crate::pairs::{locapt, locapv};
use sil_base::MAX_STATEMENTS;
use sil_macros::Macro;
use sil_micro::{Code, MAX_PIECE_WEIGHT, has_room};
use sil_model::{Specials, Statement};
use std::alloc::{AllocError, Global};

/// Whether a macro is one of these.
pub fn is_pattern(name: Macro) -> bool
    ensures { result ≡ is_pattern name }
{
    matches!(
        name,
        Macro::Cpypat | Macro::Linkor | Macro::Locapt | Macro::Locapv | Macro::Lvalue
    )
}

/// Expands statement number `at`. After an error the code may have a part of the statement's
/// operations.
pub fn expand_pattern(
    alloc: Global,
    statement: &Statement,
    at: u32,
    specials: &Specials,
    code: &mut Code,
) -> Result<(), AllocError>
    requires group { IsTrue (is_pattern statement.now.name) }
    requires fits { IsTrue (fit (row statement.now.name).places statement.now.args) }
    requires locations { All (LocatesWithin (length code.old.entries)) statement.now.args }
    requires number { at < length code.old.entries }
    requires few { length code.old.entries ≤ MAX_STATEMENTS }
    requires light { weights code.old.ops ≤ MAX_PIECE_WEIGHT * at }
    ensures { OnOk result (Expands code.old code.new at specials.now statement.now.args (tree_clause statement.now.name) (tree_visits statement.now.name) (writes_records statement.now.name)) }
{
    let _ = alloc;
    has_room(code, at);
    let args = statement.args.items();
    match statement.name {
        Macro::Cpypat => {
            let (d1, d2, d3, d4, d5, d6) = six_places(args);
            cpypat(code, at, specials, d1, d2, d3, d4, d5, d6)
        }
        Macro::Linkor => {
            let (d1, d2) = two_places(args);
            linkor(code, at, specials, d1, d2)
        }
        Macro::Locapt => {
            let (d1, d2, d3, to) = three_places_answer(args);
            locapt(code, at, specials, d1, d2, d3, to)
        }
        Macro::Locapv => {
            let (d1, d2, d3, to) = three_places_answer(args);
            locapv(code, at, specials, d1, d2, d3, to)
        }
        Macro::Lvalue => {
            let (d1, d2) = two_places(args);
            lvalue(code, at, specials, d1, d2)
        }
        _ => unreachable!(),
    }
}
