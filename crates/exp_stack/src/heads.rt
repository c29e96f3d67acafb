// How the pieces of the stack start.
ghost use Rattle.std.specs.Prelude.{◌≡◌, ◌+◌, ◌<◌, ◌≤◌, ◌^◌, OnOk, length};
ghost use Rattle.sil_micro.specs.Codes.{appended};
ghost use Rattle.exp_stack.specs.ListParts.{down_head, guard_code, up_head};

use sil_micro::{Code, op};
use std::alloc::AllocError;

/// The start where so many cells go onto the stack.
pub fn append_up(code: &mut Code, k: u32, cells: u32) -> Result<(), AllocError>
    requires room { length code.old.ops + 500 < 2 ^ 32 }
    ensures grown { OnOk result (code.new ≡ appended code.old (up_head k cells)) }
    ensures count { OnOk result (length code.new.ops ≡ length code.old.ops + 15) }
{
    code.append(&[
        op!(begin k),
        op!(number 4, 0),
        op!(number 5, 1),
        op!(load_word State 10, 4),
        op!(fixed 11, Descr),
        op!(number 12, i64::from(cells)),
        op!(Mul 12, 12, 11),
        op!(Add 12, 10, 12),
        op!(copy 15, 12),
        op!(fixed 13, Cells),
        op!(Mul 13, 13, 11),
        op!(number 14, 0x4000_0000),
        op!(Add 14, 14, 13),
        op!(Sub 14, 14, 11),
        op!(Add 10, 10, 11),
    ])?;
    Ok(())
}

/// The start where so many cells come off the stack.
pub(crate) fn append_down(code: &mut Code, k: u32, cells: u32) -> Result<(), AllocError>
    requires room { length code.old.ops + 500 < 2 ^ 32 }
    ensures grown { OnOk result (code.new ≡ appended code.old (down_head k cells)) }
    ensures count { OnOk result (length code.new.ops ≡ length code.old.ops + 12) }
{
    code.append(&[
        op!(begin k),
        op!(number 4, 0),
        op!(number 5, 1),
        op!(load_word State 10, 4),
        op!(fixed 11, Descr),
        op!(number 12, i64::from(cells)),
        op!(Mul 12, 12, 11),
        op!(Sub 12, 10, 12),
        op!(copy 14, 12),
        op!(fixed 15, Stack),
        op!(Sub 15, 15, 11),
        op!(Sub 11, 4, 11),
    ])?;
    Ok(())
}

/// To the special symbol where the cells don't fit.
pub fn append_guard(code: &mut Code, special: Option<u32>) -> Result<(), AllocError>
    requires room { length code.old.ops + 500 < 2 ^ 32 }
    ensures grown { OnOk result (code.new ≡ appended code.old (guard_code special)) }
    ensures count { OnOk result (length code.new.ops ≤ length code.old.ops + 3) }
{
    match special {
        None => {
            code.append(&[op!(jump_if Ge 14, 15, Op(3)), op!(number 6, 3), op!(end 6)])?;
            Ok(())
        }
        Some(place) => {
            code.append(&[op!(jump_if Lt 14, 15, Statement(place))])?;
            Ok(())
        }
    }
}
