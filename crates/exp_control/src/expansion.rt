// The expansion of a statement whose macro is one of flow.
ghost use Rattle.std.specs.Prelude.{◌≡◌, ◌+◌, ◌*◌, ◌<◌, ◌≤◌, ◌^◌, ◌∷◌, [], All, OnOk, IsTrue, false, length};
ghost use Rattle.sil_macros.specs.MacroRows.{row};
ghost use Rattle.sil_macros.specs.OperandPlaces.{D, LL};
ghost use Rattle.sil_macros.specs.declared.names.Macro.TheVariants.{Selbra};
ghost use Rattle.flow_clauses.specs.FlowTable.{flow_visits, flow_clause};
ghost use Rattle.sil_model.specs.Effects.{on_memory};
ghost use Rattle.sil_model.specs.Fits.{fit};
ghost use Rattle.flow_clauses.specs.FlowClauses.{selbra};
ghost use Rattle.sil_model.specs.Prints.{writes_records};
ghost use Rattle.sil_micro.specs.Expands.{Expands};
ghost use Rattle.sil_micro.specs.Pieces.{weights};
ghost use Rattle.exp_common.specs.Locations.{LocatesWithin};
ghost use Rattle.exp_control.specs.Group.{does_something, is_control};
ghost use Rattle.exp_common.specs.Allowed.{HasFewItems};

use crate::ends::{nothing, trap};
use crate::jumps::{branch, branic, load};
use crate::operands::{location, place_alone, place_number, places_locations};
use crate::selection::selbra;
use crate::stack::{istack, pstack};
use crate::storage::init;
use crate::system::mstime;
use sil_base::MAX_STATEMENTS;
use sil_macros::Macro;
use sil_micro::{Code, MAX_PIECE_WEIGHT, has_room};
use sil_model::{Arg, Specials, Statement};
use std::alloc::{AllocError, Global};

/// Whether a macro is one of flow whose expansion stands here.
pub fn is_control(name: Macro) -> bool
    ensures { result ≡ is_control name }
{
    matches!(
        name,
        Macro::Adreal
            | Macro::Branch
            | Macro::Branic
            | Macro::Dvreal
            | Macro::Exreal
            | Macro::Init
            | Macro::Intrl
            | Macro::Istack
            | Macro::Link
            | Macro::Load
            | Macro::Mnreal
            | Macro::Mpreal
            | Macro::Mstime
            | Macro::Ordvst
            | Macro::Proc
            | Macro::Pstack
            | Macro::Rcomp
            | Macro::Realst
            | Macro::Rlint
            | Macro::Sbreal
            | Macro::Selbra
            | Macro::Spreal
            | Macro::Unload
    )
}

/// Expands statement number `at`. After an error the code may have a part of the statement's
/// operations.
#[tactic(auto, unfolding(flow_clauses::specs::FlowTable::flow_clause))]
pub fn expand_control(
    alloc: Global,
    statement: &Statement,
    at: u32,
    specials: &Specials,
    code: &mut Code,
) -> Result<(), AllocError>
    requires group { IsTrue (is_control statement.now.name) }
    requires fits { IsTrue (fit (row statement.now.name).places statement.now.args) }
    requires locations { All (LocatesWithin (length code.old.entries)) statement.now.args }
    requires items { All HasFewItems statement.now.args }
    requires number { at < length code.old.entries }
    requires few { length code.old.entries ≤ MAX_STATEMENTS }
    requires light { weights code.old.ops ≤ MAX_PIECE_WEIGHT * at }
    ensures { OnOk result (Expands code.old code.new at specials.now statement.now.args (flow_clause statement.now.name) (flow_visits statement.now.name) (writes_records statement.now.name)) }
{
    let _ = alloc;
    has_room(code, at);
    match statement.name {
        Macro::Link
        | Macro::Adreal
        | Macro::Dvreal
        | Macro::Exreal
        | Macro::Intrl
        | Macro::Mnreal
        | Macro::Mpreal
        | Macro::Rcomp
        | Macro::Realst
        | Macro::Rlint
        | Macro::Sbreal
        | Macro::Spreal => trap(code, at, specials),
        Macro::Ordvst | Macro::Proc | Macro::Unload => nothing(code, at, specials),
        name => expand_other(name, statement.args.items(), at, specials, code),
    }
}

/// Expands a statement that does something.
#[tactic(auto, unfolding(flow_clauses::specs::FlowTable::flow_clause))]
fn expand_other(
    name: Macro,
    args: &[Arg],
    at: u32,
    specials: &Specials,
    code: &mut Code,
) -> Result<(), AllocError>
    requires group { IsTrue (does_something name) }
    requires fits { IsTrue (fit (row name).places args.now) }
    requires locations { All (LocatesWithin (length code.old.entries)) args.now }
    requires items { All HasFewItems args.now }
    requires number { at < length code.old.entries }
    requires few { length code.old.entries ≤ MAX_STATEMENTS }
    requires room { length code.old.ops + 1500 < 2 ^ 32 }
    ensures { OnOk result (Expands code.old code.new at specials.now args.now (flow_clause name) (flow_visits name) (writes_records name)) }
{
    match name {
        Macro::Branch => branch(code, at, specials, location(args)),
        Macro::Branic => {
            let (d, n) = place_number(args);
            branic(code, at, specials, d, n)
        }
        Macro::Init => init(code, at, specials),
        Macro::Istack => istack(code, at, specials),
        Macro::Load => {
            let (places, failure, success) = places_locations(args);
            load(code, at, specials, places, failure, success)
        }
        Macro::Mstime => mstime(code, at, specials, place_alone(args)),
        Macro::Pstack => pstack(code, at, specials, place_alone(args)),
        Macro::Selbra => expand_selbra(args, at, specials, code),
        _ => unreachable!(),
    }
}

/// Expands a selection.
fn expand_selbra(
    args: &[Arg],
    at: u32,
    specials: &Specials,
    code: &mut Code,
) -> Result<(), AllocError>
    requires fits { IsTrue (fit (D ∷ LL ∷ []) args.now) }
    requires locations { All (LocatesWithin (length code.old.entries)) args.now }
    requires items { All HasFewItems args.now }
    requires number { at < length code.old.entries }
    requires few { length code.old.entries ≤ MAX_STATEMENTS }
    requires room { length code.old.ops + 1500 < 2 ^ 32 }
    ensures { OnOk result (Expands code.old code.new at specials.now args.now (on_memory selbra) (flow_visits Selbra) false) }
{
    match args {
        [Arg::Place(d), Arg::Gotos(locations)] => {
            selbra(code, at, specials, *d, locations.items())
        }
        _ => unreachable!(),
    }
}
