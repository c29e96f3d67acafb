// What the macros on trees write.
ghost use Rattle.std.specs.Prelude.{◌≡◌, ◌+◌, ◌<◌, ◌^◌, OnOk, length};
ghost use Rattle.sil_micro.specs.Codes.{appended};
ghost use Rattle.exp_trees.specs.TreeParts.{fourth_code, inserted_code, kept_code, linked_code, made_code};

use sil_micro::{Code, op};
use std::alloc::AllocError;

/// The node in registers 5 to 7 gets the right sibling in 8 to 10 and the father in 2 to 4, and
/// comes into the cell at the address in 12; the V field at that in 13 becomes one more than 11.
/// Registers 14 and 15 have the size of one and of three cells.
#[tactic(auto, unfolding(crate::specs::TreeParts::linked_code))]
pub(crate) fn append_linked(code: &mut Code) -> Result<(), AllocError>
    requires room { length code.old.ops + 500 < 2 ^ 32 }
    ensures grown { OnOk result (code.new ≡ appended code.old linked_code) }
{
    code.append(&[
        op!(Add 1, 5, 15),
        op!(store_cell 1, 8, 9, 10),
        op!(Add 1, 5, 14),
        op!(store_cell 1, 2, 3, 4),
        op!(store_cell 12, 5, 6, 7),
        op!(number 1, 1),
        op!(Add 11, 11, 1),
        op!(store V 13, 11),
    ])?;
    Ok(())
}

/// The node in registers 8 to 10 comes between that in 2 to 4, whose right sibling is in 11 to 13,
/// and its father in 5 to 7, and has one son more. Registers 14 and 15 have the size of one and of
/// two cells.
#[tactic(auto, unfolding(crate::specs::TreeParts::inserted_code))]
pub(crate) fn append_inserted(code: &mut Code) -> Result<(), AllocError>
    requires room { length code.old.ops + 500 < 2 ^ 32 }
    ensures grown { OnOk result (code.new ≡ appended code.old inserted_code) }
{
    code.append(&[
        op!(Add 1, 15, 15),
        op!(Add 1, 8, 1),
        op!(load V 15, 1),
        op!(Add 1, 8, 14),
        op!(store_cell 1, 5, 6, 7),
        op!(Add 6, 14, 14),
        op!(Add 7, 6, 14),
        op!(Add 1, 8, 7),
        op!(store_cell 1, 11, 12, 13),
        op!(Add 1, 8, 6),
        op!(store_cell 1, 2, 3, 4),
        op!(Add 1, 2, 14),
        op!(store_cell 1, 8, 9, 10),
        op!(Add 1, 5, 6),
        op!(store_cell 1, 8, 9, 10),
        op!(Add 7, 6, 6),
        op!(Add 1, 8, 7),
        op!(number 7, 1),
        op!(Add 15, 15, 7),
        op!(store V 1, 15),
    ])?;
    Ok(())
}

/// The first three cells of the node in register 2: the first is in registers 5 to 7, the A fields
/// of the others in 8 and 9.
#[tactic(auto, unfolding(crate::specs::TreeParts::made_code))]
pub(crate) fn append_made(code: &mut Code) -> Result<(), AllocError>
    requires room { length code.old.ops + 500 < 2 ^ 32 }
    ensures grown { OnOk result (code.new ≡ appended code.old made_code) }
    ensures count { OnOk result (length code.new.ops ≡ length code.old.ops + 10) }
{
    code.append(&[
        op!(fixed 14, Descr),
        op!(number 13, 0),
        op!(Add 15, 14, 14),
        op!(Add 1, 2, 14),
        op!(store_cell 1, 5, 6, 7),
        op!(Add 1, 2, 15),
        op!(store_cell 1, 8, 13, 13),
        op!(Add 15, 15, 14),
        op!(Add 1, 2, 15),
        op!(store_cell 1, 9, 13, 13),
    ])?;
    Ok(())
}

/// The node in registers 2 to 4 goes to a place.
pub(crate) fn append_kept(code: &mut Code, to: i64) -> Result<(), AllocError>
    requires room { length code.old.ops + 500 < 2 ^ 32 }
    ensures grown { OnOk result (code.new ≡ appended code.old (kept_code to)) }
{
    code.append(&[op!(number 1, to), op!(store_cell 1, 2, 3, 4)])?;
    Ok(())
}

/// The same, after its fourth cell, which is in registers 10 to 12.
pub(crate) fn append_fourth(code: &mut Code, to: i64) -> Result<(), AllocError>
    requires room { length code.old.ops + 500 < 2 ^ 32 }
    ensures grown { OnOk result (code.new ≡ appended code.old (fourth_code to)) }
{
    code.append(&[
        op!(Add 15, 15, 14),
        op!(Add 1, 2, 15),
        op!(store_cell 1, 10, 11, 12),
        op!(number 1, to),
        op!(store_cell 1, 2, 3, 4),
    ])?;
    Ok(())
}
