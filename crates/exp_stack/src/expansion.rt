// The expansion of a statement whose macro is one of the stack.
ghost use Rattle.std.specs.Prelude.{◌≡◌, ◌*◌, ◌<◌, ◌≤◌, ◌∷◌, [], All, OnOk, IsTrue, length};
ghost use Rattle.sil_macros.specs.MacroRows.{row};
ghost use Rattle.sil_macros.specs.OperandPlaces.{DD, SS};
ghost use Rattle.flow_clauses.specs.FlowTable.{flow_visits, flow_clause};
ghost use Rattle.sil_model.specs.Fits.{fit};
ghost use Rattle.sil_model.specs.Prints.{writes_records};
ghost use Rattle.sil_model.specs.declared.program.Arg.TheVariants.{Places};
ghost use Rattle.sil_micro.specs.Expands.{Expands};
ghost use Rattle.sil_micro.specs.Pieces.{weights};
ghost use Rattle.exp_common.specs.Allowed.{AreAmong, HasFewItems};
ghost use Rattle.exp_stack.specs.Group.{is_stack};

use crate::stack::{pop, push, spop, spush};
use sil_base::MAX_STATEMENTS;
use sil_macros::Macro;
use sil_micro::{Code, MAX_PIECE_WEIGHT, has_room};
use sil_model::{Arg, Specials, Statement};
use std::alloc::{AllocError, Global};

/// Whether a macro is one of the stack that is expanded so far.
pub fn is_stack(name: Macro) -> bool
    ensures { result ≡ is_stack name }
{
    matches!(name, Macro::Pop | Macro::Push | Macro::Spop | Macro::Spush)
}

/// Expands statement number `at`. After an error the code may have a part of the statement's
/// operations.
#[tactic(auto, unfolding(flow_clauses::specs::FlowTable::flow_clause))]
pub fn expand_stack(
    alloc: Global,
    statement: &Statement,
    at: u32,
    specials: &Specials,
    code: &mut Code,
) -> Result<(), AllocError>
    requires group { IsTrue (is_stack statement.now.name) }
    requires fits { IsTrue (fit (row statement.now.name).places statement.now.args) }
    requires items { All HasFewItems statement.now.args }
    requires among { AreAmong (length code.old.entries) specials.now }
    requires number { at < length code.old.entries }
    requires few { length code.old.entries ≤ MAX_STATEMENTS }
    requires light { weights code.old.ops ≤ MAX_PIECE_WEIGHT * at }
    ensures { OnOk result (Expands code.old code.new at specials.now statement.now.args (flow_clause statement.now.name) (flow_visits statement.now.name) (writes_records statement.now.name)) }
{
    let _ = alloc;
    has_room(code, at);
    let args = statement.args.items();
    match statement.name {
        Macro::Pop => pop(code, at, specials, descriptors(args)),
        Macro::Push => push(code, at, specials, descriptors(args)),
        Macro::Spop => spop(code, at, specials, specifiers(args)),
        Macro::Spush => spush(code, at, specials, specifiers(args)),
        _ => unreachable!(),
    }
}

/// The items of a list of descriptors.
fn descriptors(args: &[Arg]) -> &[i64]
    requires shape { IsTrue (fit (DD ∷ []) args.now) }
    requires items { All HasFewItems args.now }
    ensures value { args.now ≡ Places result.now ∷ [] }
    ensures few { length result.now ≤ 40 }
{
    match args {
        [Arg::Places(places)] => places.items(),
        _ => unreachable!(),
    }
}

/// The items of a list of specifiers.
fn specifiers(args: &[Arg]) -> &[i64]
    requires shape { IsTrue (fit (SS ∷ []) args.now) }
    requires items { All HasFewItems args.now }
    ensures value { args.now ≡ Places result.now ∷ [] }
    ensures few { length result.now ≤ 40 }
{
    match args {
        [Arg::Places(places)] => places.items(),
        _ => unreachable!(),
    }
}
