// The macros that move lists to the stack and from it, one function each.
ghost use Rattle.std.specs.Prelude.{◌+◌, ◌<◌, ◌≤◌, ◌^◌, ◌∷◌, [], OnOk, false, length};
ghost use Rattle.sil_macros.specs.declared.names.Macro.TheVariants.{Pop, Push, Spop, Spush};
ghost use Rattle.flow_clauses.specs.FlowTable.{flow_visits};
ghost use Rattle.flow_clauses.specs.StackClauses.{pop, push, spop, spush};
ghost use Rattle.sil_model.specs.declared.program.Arg.TheVariants.{Places};
ghost use Rattle.sil_micro.specs.Expands.{Expands};
ghost use Rattle.exp_common.specs.Allowed.{AreAmong};

use crate::addresses::{append_line, append_places};
use crate::heads::{append_down, append_guard, append_up};
use crate::moves::append_moves;
use crate::specifiers::append_spec_moves;
use sil_micro::{Code, op};
use sil_model::Specials;
use std::alloc::AllocError;

/// `PUSH DD`: the items go onto the stack in order, or to OVER where there is no room.
pub fn push(code: &mut Code, k: u32, specials: &Specials, places: &[i64]) -> Result<(), AllocError>
    requires statement { k < length code.old.entries }
    requires room { length code.old.ops + 1500 < 2 ^ 32 }
    requires few { length places.now ≤ 40 }
    requires among { AreAmong (length code.old.entries) specials.now }
    ensures { OnOk result (Expands code.old code.new k specials.now (Places places.now ∷ []) push (flow_visits Push) false) }
{
    let count = places.len() as u32;
    code.begin_statement(k);
    append_up(code, k, count)?;
    append_guard(code, specials.over)?;
    append_places(code, 0, places)?;
    append_line(code, 100, count)?;
    append_moves(code, count)?;
    Ok(())
}

/// `POP DD`: the items come from the top down, or to INTR10 where the stack has too few.
pub fn pop(code: &mut Code, k: u32, specials: &Specials, places: &[i64]) -> Result<(), AllocError>
    requires statement { k < length code.old.entries }
    requires room { length code.old.ops + 1500 < 2 ^ 32 }
    requires few { length places.now ≤ 40 }
    requires among { AreAmong (length code.old.entries) specials.now }
    ensures { OnOk result (Expands code.old code.new k specials.now (Places places.now ∷ []) pop (flow_visits Pop) false) }
{
    let count = places.len() as u32;
    code.begin_statement(k);
    append_down(code, k, count)?;
    append_guard(code, specials.under)?;
    append_line(code, 0, count)?;
    append_places(code, 100, places)?;
    append_moves(code, count)?;
    Ok(())
}

/// `SPUSH SS`: as PUSH with the two cells of each specifier.
pub fn spush(code: &mut Code, k: u32, specials: &Specials, places: &[i64]) -> Result<(), AllocError>
    requires statement { k < length code.old.entries }
    requires room { length code.old.ops + 1500 < 2 ^ 32 }
    requires few { length places.now ≤ 40 }
    requires among { AreAmong (length code.old.entries) specials.now }
    ensures { OnOk result (Expands code.old code.new k specials.now (Places places.now ∷ []) spush (flow_visits Spush) false) }
{
    let count = places.len() as u32;
    code.begin_statement(k);
    append_up(code, k, 2 * count)?;
    append_guard(code, specials.over)?;
    code.append(&[op!(Add 11, 11, 11)])?;
    append_places(code, 0, places)?;
    append_line(code, 100, count)?;
    append_spec_moves(code, count)?;
    Ok(())
}

/// `SPOP SS`: as POP with the two cells of each specifier.
pub fn spop(code: &mut Code, k: u32, specials: &Specials, places: &[i64]) -> Result<(), AllocError>
    requires statement { k < length code.old.entries }
    requires room { length code.old.ops + 1500 < 2 ^ 32 }
    requires few { length places.now ≤ 40 }
    requires among { AreAmong (length code.old.entries) specials.now }
    ensures { OnOk result (Expands code.old code.new k specials.now (Places places.now ∷ []) spop (flow_visits Spop) false) }
{
    let count = places.len() as u32;
    code.begin_statement(k);
    append_down(code, k, 2 * count)?;
    append_guard(code, specials.under)?;
    code.append(&[op!(Add 10, 10, 11), op!(Add 11, 11, 11)])?;
    append_line(code, 0, count)?;
    append_places(code, 100, places)?;
    append_spec_moves(code, count)?;
    Ok(())
}
