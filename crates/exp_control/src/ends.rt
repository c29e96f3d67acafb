// Traps, and nothing.
ghost use Rattle.std.specs.Prelude.{ℕ, ◌+◌, ◌<◌, ◌^◌, List, OnOk, false, length};
ghost use Rattle.flow_clauses.specs.FlowClauses.{nothing, trap};
ghost use Rattle.sil_model.specs.Effects.{on_memory};
ghost use Rattle.sil_model.specs.Sites.{Site};
ghost use Rattle.sil_model.specs.States.{State};
ghost use Rattle.sil_model.specs.declared.program.Arg.{Arg};
ghost use Rattle.sil_micro.specs.Expands.{Expands};

use sil_micro::{Code, op};
use sil_model::Specials;
use std::alloc::AllocError;

/// `LINK` and the macros of reals: a trap.
pub fn trap(code: &mut Code, k: u32, specials: &Specials) -> Result<(), AllocError>
    requires statement { k < length code.old.entries }
    requires room { length code.old.ops + 1500 < 2 ^ 32 }
    ensures { OnOk result ((args : List Arg) (visits : Site → State → ℕ) → Expands code.old code.new k specials.now args (on_memory trap) visits false) }
{
    code.begin_statement(k);
    code.append(&[op!(begin k), op!(number 1, 2), op!(end 1)])?;
    Ok(())
}

/// `PROC`, `ORDVST` and `UNLOAD`: nothing.
pub fn nothing(code: &mut Code, k: u32, specials: &Specials) -> Result<(), AllocError>
    requires statement { k < length code.old.entries }
    requires room { length code.old.ops + 1500 < 2 ^ 32 }
    ensures { OnOk result ((args : List Arg) (visits : Site → State → ℕ) → Expands code.old code.new k specials.now args (on_memory nothing) visits false) }
{
    code.begin_statement(k);
    code.append(&[op!(begin k)])?;
    Ok(())
}
