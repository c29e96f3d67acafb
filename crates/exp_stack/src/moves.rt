// Cells that are read, and then written.
ghost use Rattle.std.specs.Prelude.{◌≡◌, ◌+◌, ◌<◌, ◌^◌, OnOk, length};
ghost use Rattle.sil_micro.specs.Codes.{appended};
ghost use Rattle.exp_stack.specs.ListParts.{gather_code, moves_code, scatter_code};

use sil_micro::{Code, op};
use std::alloc::AllocError;

/// So many cells, whose addresses are in the first scratch words, are read into those from `to` on.
pub fn append_gather(code: &mut Code, to: u32, count: u32) -> Result<(), AllocError>
    requires room { length code.old.ops + 500 < 2 ^ 32 }
    ensures grown { OnOk result (code.new ≡ appended code.old (gather_code to count)) }
    ensures count { OnOk result (length code.new.ops ≡ length code.old.ops + 17) }
{
    code.append(&[
        op!(number 1, 0),
        op!(number 2, i64::from(to)),
        op!(number 3, i64::from(count)),
        op!(jump_if Eq 3, 4, Op(17)),
        op!(load_word Scratch 6, 1),
        op!(load A 7, 6),
        op!(load F 8, 6),
        op!(load V 9, 6),
        op!(store_word Scratch 2, 7),
        op!(Add 2, 2, 5),
        op!(store_word Scratch 2, 8),
        op!(Add 2, 2, 5),
        op!(store_word Scratch 2, 9),
        op!(Add 2, 2, 5),
        op!(Add 1, 1, 5),
        op!(Sub 3, 3, 5),
        op!(jump Op(3)),
    ])?;
    Ok(())
}

/// What was read is written to the cells whose addresses are in the words from 100 on.
pub fn append_scatter(code: &mut Code, count: u32) -> Result<(), AllocError>
    requires room { length code.old.ops + 500 < 2 ^ 32 }
    ensures grown { OnOk result (code.new ≡ appended code.old (scatter_code count)) }
    ensures count { OnOk result (length code.new.ops ≡ length code.old.ops + 15) }
{
    code.append(&[
        op!(number 1, 100),
        op!(number 2, 200),
        op!(number 3, i64::from(count)),
        op!(jump_if Eq 3, 4, Op(15)),
        op!(load_word Scratch 6, 1),
        op!(load_word Scratch 7, 2),
        op!(Add 2, 2, 5),
        op!(load_word Scratch 8, 2),
        op!(Add 2, 2, 5),
        op!(load_word Scratch 9, 2),
        op!(Add 2, 2, 5),
        op!(store_cell 6, 7, 8, 9),
        op!(Add 1, 1, 5),
        op!(Sub 3, 3, 5),
        op!(jump Op(3)),
    ])?;
    Ok(())
}

/// So many cells are read, all are written, and the top of the stack is set.
pub(crate) fn append_moves(code: &mut Code, count: u32) -> Result<(), AllocError>
    requires room { length code.old.ops + 600 < 2 ^ 32 }
    ensures grown { OnOk result (code.new ≡ appended code.old (moves_code count)) }
{
    append_gather(code, 200, count)?;
    append_scatter(code, count)?;
    code.append(&[op!(store_word State 4, 12)])?;
    Ok(())
}
