// Jumps to statements.
ghost use Rattle.std.specs.Prelude.{◌+◌, ◌<◌, ◌≤◌, ◌^◌, ◌∷◌, [], Some, OnOk, false, length};
ghost use Rattle.sil_macros.specs.declared.names.Macro.TheVariants.{Branch, Branic, Load};
ghost use Rattle.flow_clauses.specs.CallClauses.{branic};
ghost use Rattle.flow_clauses.specs.FlowTable.{flow_visits};
ghost use Rattle.sil_model.specs.Effects.{on_memory, on_site};
ghost use Rattle.flow_clauses.specs.FlowClauses.{branch, load};
ghost use Rattle.sil_model.specs.declared.program.Arg.TheVariants.{Absent, Goto, Number, Place};
ghost use Rattle.sil_micro.specs.Expands.{Expands};
ghost use Rattle.exp_common.specs.Locations.{IsAmong};

use exp_common::lead;
use sil_base::MAX_STATEMENTS;
use sil_micro::{Code, Op, op};
use sil_model::Specials;
use std::alloc::AllocError;

/// `BRANCH R,E?`: to R.
pub fn branch(code: &mut Code, k: u32, specials: &Specials, to: u32) -> Result<(), AllocError>
    requires statement { k < length code.old.entries }
    requires room { length code.old.ops + 1500 < 2 ^ 32 }
    requires within { to < length code.old.entries }
    ensures { OnOk result (Expands code.old code.new k specials.now (Goto (Some to) ∷ Absent ∷ []) (on_memory branch) (flow_visits Branch) false) }
{
    code.begin_statement(k);
    code.append(&[op!(begin k), op!(jump Statement(to))])?;
    Ok(())
}

/// `LOAD D,S1,S2,LF,LS`: to LF.
pub fn load(
    code: &mut Code,
    k: u32,
    specials: &Specials,
    places: (i64, i64, i64),
    failure: Option<u32>,
    success: Option<u32>,
) -> Result<(), AllocError>
    requires statement { k < length code.old.entries }
    requires few { length code.old.entries ≤ MAX_STATEMENTS }
    requires room { length code.old.ops + 1500 < 2 ^ 32 }
    requires within { IsAmong (length code.old.entries) failure }
    ensures { OnOk result (Expands code.old code.new k specials.now (Place places.0 ∷ Place places.1 ∷ Place places.2 ∷ Goto failure ∷ Goto success ∷ []) (on_memory load) (flow_visits Load) false) }
{
    let _ = (places, success);
    let to = lead(k, failure);
    code.begin_statement(k);
    code.append(&[op!(begin k), op!(jump Statement(to))])?;
    Ok(())
}

/// `BRANIC D,N`: to the statement whose entry is [D.A + N].A.
pub fn branic(
    code: &mut Code,
    k: u32,
    specials: &Specials,
    d: i64,
    n: i64,
) -> Result<(), AllocError>
    requires statement { k < length code.old.entries }
    requires room { length code.old.ops + 1500 < 2 ^ 32 }
    ensures { OnOk result (Expands code.old code.new k specials.now (Place d ∷ Number n ∷ []) (on_site branic) (flow_visits Branic) false) }
{
    code.begin_statement(k);
    code.append(&[
        op!(begin k),
        op!(number 1, d),
        op!(load A 1, 1),
        op!(number 2, n),
        op!(Add 1, 1, 2),
        op!(load A 1, 1),
        Op::JumpEntry { entry: 1 },
    ])?;
    Ok(())
}
