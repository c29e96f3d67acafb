// Time.
ghost use Rattle.std.specs.Prelude.{◌+◌, ◌<◌, ◌^◌, ◌∷◌, [], OnOk, false, length};
ghost use Rattle.sil_macros.specs.declared.names.Macro.TheVariants.{Mstime};
ghost use Rattle.flow_clauses.specs.FlowTable.{flow_visits};
ghost use Rattle.flow_clauses.specs.FlowClauses.{mstime};
ghost use Rattle.sil_model.specs.declared.program.Arg.TheVariants.{Place};
ghost use Rattle.sil_micro.specs.Expands.{Expands};

use sil_micro::{Code, op};
use sil_model::Specials;
use std::alloc::AllocError;

/// `MSTIME D`: D := (the steps taken before this one, 0, 0).
pub fn mstime(code: &mut Code, k: u32, specials: &Specials, d: i64) -> Result<(), AllocError>
    requires statement { k < length code.old.entries }
    requires room { length code.old.ops + 1500 < 2 ^ 32 }
    ensures { OnOk result (Expands code.old code.new k specials.now (Place d ∷ []) mstime (flow_visits Mstime) false) }
{
    code.begin_statement(k);
    code.append(&[
        op!(begin k),
        op!(number 1, 2),
        op!(load_word State 2, 1),
        op!(number 1, 1),
        op!(Sub 2, 2, 1),
        op!(number 1, d),
        op!(number 3, 0),
        op!(store_cell 1, 2, 3, 3),
    ])?;
    Ok(())
}
