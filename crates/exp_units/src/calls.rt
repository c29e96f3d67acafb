// Calls on units.
ghost use Rattle.std.specs.Prelude.{◌≡◌, ◌+◌, ◌<◌, ◌^◌, OnOk, IsTrue, length};
ghost use Rattle.sil_micro.specs.Codes.{appended};
ghost use Rattle.sil_micro.specs.Forms.{is_call};
ghost use Rattle.exp_units.specs.UnitParts.{call_code, unit_head};

use sil_micro::{Code, Op, Text, Values, op};
use std::alloc::AllocError;

/// The number of the unit goes to register 4.
pub(crate) fn append_head(code: &mut Code, k: u32, d: i64) -> Result<(), AllocError>
    requires room { length code.old.ops + 500 < 2 ^ 32 }
    ensures grown { OnOk result (code.new ≡ appended code.old (unit_head k d)) }
    ensures count { OnOk result (length code.new.ops ≡ length code.old.ops + 3) }
{
    code.append(&[op!(begin k), op!(number 1, d), op!(load A 4, 1)])?;
    Ok(())
}

/// The unit is called, and its answer says where the statement goes.
pub(crate) fn append_call(
    code: &mut Code,
    call: u8,
    text: Text,
    values: Values,
) -> Result<(), AllocError>
    requires room { length code.old.ops + 500 < 2 ^ 32 }
    requires call { IsTrue (is_call call text values) }
    ensures { OnOk result (code.new ≡ appended code.old (call_code call text values)) }
{
    code.append(&[
        Op::UnitCall {
            call,
            unit: 4,
            to: 1,
            text,
            values,
        },
        op!(number 2, 0),
        op!(jump_if Eq 1, 2, Op(12)),
        op!(number 2, 1),
        op!(jump_if Eq 1, 2, Op(8)),
        op!(number 2, 3),
        op!(jump_if Eq 1, 2, Op(10)),
        op!(end 2),
        op!(number 2, 5),
        op!(end 2),
        op!(number 2, 2),
        op!(end 2),
    ])?;
    Ok(())
}
