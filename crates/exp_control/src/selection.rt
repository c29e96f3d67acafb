// A selection by number.
ghost use Rattle.std.specs.Prelude.{◌≡◌, ◌+◌, ◌*◌, ◌<◌, ◌≤◌, ◌^◌, ◌∷◌, [], All, OnOk, false, length};
ghost use Rattle.sil_macros.specs.declared.names.Macro.TheVariants.{Selbra};
ghost use Rattle.flow_clauses.specs.FlowTable.{flow_visits};
ghost use Rattle.sil_model.specs.Effects.{on_memory};
ghost use Rattle.flow_clauses.specs.FlowClauses.{selbra};
ghost use Rattle.sil_model.specs.declared.program.Arg.TheVariants.{Gotos, Place};
ghost use Rattle.sil_micro.specs.Codes.{appended};
ghost use Rattle.sil_micro.specs.Expands.{Expands};
ghost use Rattle.exp_common.specs.Locations.{IsAmong};
ghost use Rattle.exp_control.specs.SelectionParts.{choices_code, selection_head};

use exp_common::lead;
use sil_base::MAX_STATEMENTS;
use sil_micro::{Code, op};
use sil_model::Specials;
use std::alloc::AllocError;

/// The number goes to register 2.
fn append_head(code: &mut Code, k: u32, d: i64) -> Result<(), AllocError>
    requires room { length code.old.ops + 500 < 2 ^ 32 }
    ensures grown { OnOk result (code.new ≡ appended code.old (selection_head k d)) }
    ensures count { OnOk result (length code.new.ops ≡ length code.old.ops + 3) }
{
    code.append(&[op!(begin k), op!(number 1, d), op!(load A 2, 1)])?;
    Ok(())
}

/// Jumps to the locations, each where register 2 holds its number.
fn append_choices(code: &mut Code, k: u32, locations: &[Option<u32>]) -> Result<(), AllocError>
    requires room { length code.old.ops + 500 < 2 ^ 32 }
    requires few { length locations.now ≤ 100 }
    requires number { k < 2 ^ 31 }
    ensures { OnOk result (code.new ≡ appended code.old (choices_code k 1 locations.now)) }
{
    for (i, location) in locations.iter().enumerate() {
        code.append(&[
            op!(number 3, 1 + i as i64),
            op!(jump_if Eq 2, 3, Statement(lead(k, *location))),
        ])?;
    }
    Ok(())
}

/// `SELBRA D,LL`: to the D.A-th location, counted from 1; on where there is none.
pub fn selbra(
    code: &mut Code,
    k: u32,
    specials: &Specials,
    d: i64,
    locations: &[Option<u32>],
) -> Result<(), AllocError>
    requires statement { k < length code.old.entries }
    requires statements { length code.old.entries ≤ MAX_STATEMENTS }
    requires room { length code.old.ops + 1500 < 2 ^ 32 }
    requires few { length locations.now ≤ 40 }
    requires within { All (IsAmong (length code.old.entries)) locations.now }
    ensures { OnOk result (Expands code.old code.new k specials.now (Place d ∷ Gotos locations.now ∷ []) (on_memory selbra) (flow_visits Selbra) false) }
{
    code.begin_statement(k);
    append_head(code, k, d)?;
    append_choices(code, k, locations)?;
    Ok(())
}
