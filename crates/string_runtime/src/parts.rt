// Parts of the pieces of strings.
ghost use Rattle.std.specs.Prelude.{◌≡◌, ◌+◌, ◌<◌, ◌^◌, OnOk, length};
ghost use Rattle.sil_micro.specs.Codes.{appended};
ghost use Rattle.string_runtime.specs.StringParts.{first_code, first_length, first_string, keep_first, keep_second, length_code, shorter_code, start_code, text_code};

use sil_micro::{Code, op};
use std::alloc::AllocError;

/// Statement k begins.
pub fn append_start(code: &mut Code, k: u32) -> Result<(), AllocError>
    requires room { length code.old.ops + 500 < 2 ^ 32 }
    ensures grown { OnOk result (code.new ≡ appended code.old (start_code k)) }
    ensures count { OnOk result (length code.new.ops ≡ length code.old.ops + 4) }
{
    code.append(&[
        op!(begin k),
        op!(number 4, 0),
        op!(number 11, 1),
        op!(fixed 5, Descr),
    ])?;
    Ok(())
}

/// Register 7 := the length of a specifier.
pub fn append_length(code: &mut Code, s: i64) -> Result<(), AllocError>
    requires room { length code.old.ops + 500 < 2 ^ 32 }
    ensures grown { OnOk result (code.new ≡ appended code.old (length_code s)) }
    ensures count { OnOk result (length code.new.ops ≡ length code.old.ops + 3) }
{
    code.append(&[op!(number 1, s), op!(Add 1, 1, 5), op!(load V 7, 1)])?;
    Ok(())
}

/// Register 2 := the address of the first character of a specifier, where register 7 isn't 0.
pub fn append_first(code: &mut Code, s: i64) -> Result<(), AllocError>
    requires room { length code.old.ops + 500 < 2 ^ 32 }
    ensures grown { OnOk result (code.new ≡ appended code.old (first_code s)) }
    ensures count { OnOk result (length code.new.ops ≡ length code.old.ops + 7) }
{
    code.append(&[
        op!(number 1, s),
        op!(Add 6, 1, 5),
        op!(number 2, 0),
        op!(jump_if Eq 7, 4, Op(7)),
        op!(load A 2, 1),
        op!(load A 3, 6),
        op!(Add 2, 2, 3),
    ])?;
    Ok(())
}

/// Register 8 := register 7.
pub(crate) fn append_copy_length(code: &mut Code) -> Result<(), AllocError>
    requires room { length code.old.ops + 500 < 2 ^ 32 }
    ensures grown { OnOk result (code.new ≡ appended code.old first_length) }
    ensures count { OnOk result (length code.new.ops ≡ length code.old.ops + 1) }
{
    code.append(&[op!(copy 8, 7)])?;
    Ok(())
}

/// Register 9 := register 7, and register 7 the lesser of registers 8 and 9.
pub(crate) fn append_shorter(code: &mut Code) -> Result<(), AllocError>
    requires room { length code.old.ops + 500 < 2 ^ 32 }
    ensures grown { OnOk result (code.new ≡ appended code.old shorter_code) }
    ensures count { OnOk result (length code.new.ops ≡ length code.old.ops + 4) }
{
    code.append(&[
        op!(copy 9, 7),
        op!(jump_if Lt 8, 9, Op(3)),
        op!(jump Op(4)),
        op!(copy 7, 8),
    ])?;
    Ok(())
}

/// Register 13 := register 2.
pub(crate) fn append_copy_first(code: &mut Code) -> Result<(), AllocError>
    requires room { length code.old.ops + 500 < 2 ^ 32 }
    ensures grown { OnOk result (code.new ≡ appended code.old first_string) }
    ensures count { OnOk result (length code.new.ops ≡ length code.old.ops + 1) }
{
    code.append(&[op!(copy 13, 2)])?;
    Ok(())
}

/// S := (the hidden buffer, 0, 0, 0, register 9).
pub(crate) fn append_text(code: &mut Code, s: i64) -> Result<(), AllocError>
    requires room { length code.old.ops + 500 < 2 ^ 32 }
    ensures grown { OnOk result (code.new ≡ appended code.old (text_code s)) }
    ensures count { OnOk result (length code.new.ops ≡ length code.old.ops + 6) }
{
    code.append(&[
        op!(fixed 3, Hidden),
        op!(fixed 5, Descr),
        op!(number 1, s),
        op!(store_cell 1, 3, 4, 4),
        op!(Add 1, 1, 5),
        op!(store_cell 1, 4, 4, 9),
    ])?;
    Ok(())
}

/// Registers 12 and 13 := registers 2 and 7.
pub(crate) fn append_keep_first(code: &mut Code) -> Result<(), AllocError>
    requires room { length code.old.ops + 500 < 2 ^ 32 }
    ensures grown { OnOk result (code.new ≡ appended code.old keep_first) }
    ensures count { OnOk result (length code.new.ops ≡ length code.old.ops + 2) }
{
    code.append(&[op!(copy 12, 2), op!(copy 13, 7)])?;
    Ok(())
}

/// Registers 14 and 15 := registers 2 and 7.
pub fn append_keep_second(code: &mut Code) -> Result<(), AllocError>
    requires room { length code.old.ops + 500 < 2 ^ 32 }
    ensures grown { OnOk result (code.new ≡ appended code.old keep_second) }
    ensures count { OnOk result (length code.new.ops ≡ length code.old.ops + 2) }
{
    code.append(&[op!(copy 14, 2), op!(copy 15, 7)])?;
    Ok(())
}
