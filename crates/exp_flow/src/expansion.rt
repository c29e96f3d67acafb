// The expansion of a statement whose macro is one of flow.
ghost use Rattle.std.specs.Prelude.{◌≡◌, ◌*◌, ◌<◌, ◌≤◌, OnOk, IsTrue, length};
ghost use Rattle.sil_macros.specs.MacroRows.{row};
ghost use Rattle.flow_clauses.specs.FlowTable.{flow_visits, flow_clause};
ghost use Rattle.sil_model.specs.Fits.{fit};
ghost use Rattle.sil_model.specs.Prints.{writes_records};
ghost use Rattle.sil_micro.specs.Expands.{Expands};
ghost use Rattle.sil_micro.specs.Pieces.{weights};
ghost use Rattle.exp_flow.specs.Group.{is_flow};

use crate::ends::endex;
use sil_base::MAX_STATEMENTS;
use sil_macros::Macro;
use sil_micro::{Code, MAX_PIECE_WEIGHT, has_room};
use sil_model::{Arg, Specials, Statement};
use std::alloc::{AllocError, Global};

/// Whether a macro is one of flow that is expanded so far.
pub fn is_flow(name: Macro) -> bool
    ensures { result ≡ is_flow name }
{
    matches!(name, Macro::Endex)
}

/// Expands statement number `at`. After an error the code may have a part of the statement's
/// operations.
#[tactic(auto, unfolding(flow_clauses::specs::FlowTable::flow_clause))]
pub fn expand_flow(
    alloc: Global,
    statement: &Statement,
    at: u32,
    specials: &Specials,
    code: &mut Code,
) -> Result<(), AllocError>
    requires group { IsTrue (is_flow statement.now.name) }
    requires fits { IsTrue (fit (row statement.now.name).places statement.now.args) }
    requires number { at < length code.old.entries }
    requires few { length code.old.entries ≤ MAX_STATEMENTS }
    requires light { weights code.old.ops ≤ MAX_PIECE_WEIGHT * at }
    ensures { OnOk result (Expands code.old code.new at specials.now statement.now.args (flow_clause statement.now.name) (flow_visits statement.now.name) (writes_records statement.now.name)) }
{
    let _ = alloc;
    has_room(code, at);
    match (statement.name, statement.args.items()) {
        (Macro::Endex, [Arg::Place(d)]) => endex(code, at, specials, *d),
        _ => unreachable!(),
    }
}
