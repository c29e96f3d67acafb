// Tops of the stack.
ghost use Rattle.std.specs.Prelude.{◌+◌, ◌<◌, ◌^◌, ◌∷◌, [], OnOk, false, length};
ghost use Rattle.sil_macros.specs.declared.names.Macro.TheVariants.{Istack, Pstack};
ghost use Rattle.flow_clauses.specs.FlowTable.{flow_visits};
ghost use Rattle.flow_clauses.specs.StackClauses.{istack, pstack};
ghost use Rattle.sil_model.specs.declared.program.Arg.TheVariants.{Place};
ghost use Rattle.sil_micro.specs.Expands.{Expands};

use sil_micro::{Code, op};
use sil_model::Specials;
use std::alloc::AllocError;

/// `ISTACK`: current and old := the cell before the stack.
pub fn istack(code: &mut Code, k: u32, specials: &Specials) -> Result<(), AllocError>
    requires statement { k < length code.old.entries }
    requires room { length code.old.ops + 1500 < 2 ^ 32 }
    ensures { OnOk result (Expands code.old code.new k specials.now [] istack (flow_visits Istack) false) }
{
    code.begin_statement(k);
    code.append(&[
        op!(begin k),
        op!(fixed 1, Stack),
        op!(fixed 2, Descr),
        op!(Sub 1, 1, 2),
        op!(number 2, 0),
        op!(store_word State 2, 1),
        op!(number 2, 1),
        op!(store_word State 2, 1),
    ])?;
    Ok(())
}

/// `PSTACK D`: D := (current - d, 0, 0).
pub fn pstack(code: &mut Code, k: u32, specials: &Specials, d: i64) -> Result<(), AllocError>
    requires statement { k < length code.old.entries }
    requires room { length code.old.ops + 1500 < 2 ^ 32 }
    ensures { OnOk result (Expands code.old code.new k specials.now (Place d ∷ []) pstack (flow_visits Pstack) false) }
{
    code.begin_statement(k);
    code.append(&[
        op!(begin k),
        op!(number 3, 0),
        op!(load_word State 2, 3),
        op!(fixed 1, Descr),
        op!(Sub 2, 2, 1),
        op!(number 1, d),
        op!(store_cell 1, 2, 3, 3),
    ])?;
    Ok(())
}
