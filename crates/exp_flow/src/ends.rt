// Ends of runs.
ghost use Rattle.std.specs.Prelude.{◌+◌, ◌<◌, ◌^◌, ◌∷◌, [], OnOk, false, length};
ghost use Rattle.sil_macros.specs.declared.names.Macro.TheVariants.{Endex};
ghost use Rattle.flow_clauses.specs.FlowClauses.{endex};
ghost use Rattle.flow_clauses.specs.FlowTable.{flow_visits};
ghost use Rattle.sil_model.specs.Effects.{on_memory};
ghost use Rattle.sil_model.specs.declared.program.Arg.TheVariants.{Place};
ghost use Rattle.sil_micro.specs.Expands.{Expands};

use sil_micro::{Code, op};
use sil_model::Specials;
use std::alloc::AllocError;

/// `ENDEX D`: ends as exit 0 where D.A = 0, else as exit 1.
pub fn endex(code: &mut Code, k: u32, specials: &Specials, d: i64) -> Result<(), AllocError>
    requires statement { k < length code.old.entries }
    requires room { length code.old.ops + 1500 < 2 ^ 32 }
    ensures { OnOk result (Expands code.old code.new k specials.now (Place d ∷ []) (on_memory endex) (flow_visits Endex) false) }
{
    code.begin_statement(k);
    code.append(&[
        op!(begin k),
        op!(number 1, d),
        op!(load A 2, 1),
        op!(number 3, 0),
        op!(jump_if Eq 2, 3, Op(6)),
        op!(number 3, 1),
        op!(end 3),
    ])?;
    Ok(())
}
