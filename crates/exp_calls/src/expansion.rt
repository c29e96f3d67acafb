// The expansion of a statement whose macro is a call.
ghost use Rattle.std.specs.Prelude.{◌≡◌, ◌*◌, ◌<◌, ◌≤◌, All, OnOk, IsTrue, length};
ghost use Rattle.sil_macros.specs.MacroRows.{row};
ghost use Rattle.flow_clauses.specs.CallClauses.{is_rcall};
ghost use Rattle.sil_model.specs.Fits.{fit};
ghost use Rattle.sil_micro.specs.Pieces.{weights};
ghost use Rattle.exp_common.specs.Locations.{LocatesWithin};
ghost use Rattle.exp_common.specs.Allowed.{AreAmong, HasFewItems};
ghost use Rattle.exp_calls.specs.CallHalves.{ExpandsCall};

use crate::calls::rcall;
use crate::operands::{arguments, descriptor, locations, procedure};
use sil_base::MAX_STATEMENTS;
use sil_macros::Macro;
use sil_micro::{Code, MAX_PIECE_WEIGHT, has_room};
use sil_model::{Specials, Statement};
use std::alloc::{AllocError, Global};

/// Whether a macro calls a procedure.
pub fn is_call(name: Macro) -> bool
    ensures { result ≡ is_rcall name }
{
    matches!(name, Macro::Rcall)
}

/// Expands statement number `at`, an RCALL. After an error the code may have a part of the
/// statement's operations.
pub fn expand_call(
    alloc: Global,
    statement: &Statement,
    at: u32,
    specials: &Specials,
    code: &mut Code,
) -> Result<(), AllocError>
    requires group { IsTrue (is_rcall statement.now.name) }
    requires fits { IsTrue (fit (row statement.now.name).places statement.now.args) }
    requires items { All HasFewItems statement.now.args }
    requires locations { All (LocatesWithin (length code.old.entries)) statement.now.args }
    requires among { AreAmong (length code.old.entries) specials.now }
    requires number { at < length code.old.entries }
    requires few { length code.old.entries ≤ MAX_STATEMENTS }
    requires light { weights code.old.ops ≤ MAX_PIECE_WEIGHT * at }
    ensures { OnOk result (ExpandsCall code.old code.new at specials.now statement.now.args) }
{
    let _ = alloc;
    has_room(code, at);
    let args = statement.args.items();
    let to = procedure(args);
    rcall(
        code,
        at,
        specials,
        descriptor(args),
        to,
        arguments(args),
        locations(args),
    )
}
