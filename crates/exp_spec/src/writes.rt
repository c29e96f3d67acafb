// Specifiers and sizes that are written.
ghost use Rattle.std.specs.Prelude.{◌≡◌, ◌+◌, ◌<◌, ◌^◌, OnOk, length};
ghost use Rattle.sil_micro.specs.Codes.{appended};
ghost use Rattle.exp_spec.specs.SpecParts.{size_code, write_code, write_to_code};

use sil_micro::{Code, op};
use std::alloc::AllocError;

/// The specifier at the address in register 1 gets the fields in registers 2 to 6; register 7 has
/// the size of a cell.
#[tactic(auto, unfolding(crate::specs::SpecParts::write_code))]
pub(crate) fn append_write(code: &mut Code) -> Result<(), AllocError>
    requires room { length code.old.ops + 500 < 2 ^ 32 }
    ensures grown { OnOk result (code.new ≡ appended code.old write_code) }
{
    code.append(&[
        op!(store_cell 1, 2, 3, 4),
        op!(Add 1, 1, 7),
        op!(number 3, 0),
        op!(store_cell 1, 5, 3, 6),
    ])?;
    Ok(())
}

/// The same, and on to a statement.
#[tactic(auto, unfolding(crate::specs::SpecParts::write_to_code))]
pub(crate) fn append_write_to(code: &mut Code, to: u32) -> Result<(), AllocError>
    requires room { length code.old.ops + 500 < 2 ^ 32 }
    ensures grown { OnOk result (code.new ≡ appended code.old (write_to_code to)) }
{
    code.append(&[
        op!(store_cell 1, 2, 3, 4),
        op!(Add 1, 1, 7),
        op!(number 3, 0),
        op!(store_cell 1, 5, 3, 6),
        op!(jump Statement(to)),
    ])?;
    Ok(())
}

/// The cell at an address gets the number in register 4, with 0 as F and V.
pub(crate) fn append_size(code: &mut Code, at: i64) -> Result<(), AllocError>
    requires room { length code.old.ops + 500 < 2 ^ 32 }
    ensures grown { OnOk result (code.new ≡ appended code.old (size_code at)) }
{
    code.append(&[
        op!(number 1, at),
        op!(number 3, 0),
        op!(store_cell 1, 4, 3, 3),
    ])?;
    Ok(())
}
