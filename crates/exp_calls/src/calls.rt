// The call.
ghost use Rattle.std.specs.Prelude.{◌+◌, ◌<◌, ◌≤◌, ◌^◌, List, All, OnOk, length};
ghost use Rattle.sil_model.specs.declared.program.Arg.{Arg};
ghost use Rattle.exp_common.specs.Locations.{IsAmong};
ghost use Rattle.exp_common.specs.Allowed.{AreAmong};
ghost use Rattle.exp_calls.specs.CallHalves.{ExpandsCall};
ghost use Rattle.exp_calls.specs.CallOperands.{IsCall};

use crate::answers::append_return;
use crate::frames::append_call;
use sil_base::MAX_STATEMENTS;
use sil_micro::Code;
use sil_model::Specials;
use std::alloc::AllocError;

/// `RCALL D?,R,DD?,LL`: a frame with the arguments goes onto the stack, or it goes to OVER where
/// there is no room, and the procedure follows.
pub fn rcall(
    code: &mut Code,
    k: u32,
    specials: &Specials,
    descriptor: Option<i64>,
    procedure: u32,
    places: &[i64],
    locations: &[Option<u32>],
) -> Result<(), AllocError>
    requires statement { k < length code.old.entries }
    requires few_statements { length code.old.entries ≤ MAX_STATEMENTS }
    requires room { length code.old.ops + 1500 < 2 ^ 32 }
    requires among { AreAmong (length code.old.entries) specials.now }
    requires within { procedure < length code.old.entries }
    requires few { length places.now ≤ 40 }
    requires few_locations { length locations.now ≤ 40 }
    requires located { All (IsAmong (length code.old.entries)) locations.now }
    ensures { OnOk result ((args : List Arg) → IsCall args descriptor procedure places.now locations.now → ExpandsCall code.old code.new k specials.now args) }
{
    code.begin_statement(k);
    append_call(code, k, specials.over, procedure, places)?;
    code.begin_return(k);
    append_return(code, k, descriptor, locations)?;
    Ok(())
}
