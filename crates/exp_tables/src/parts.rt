// Parts of the piece of STREAM.
ghost use Rattle.std.specs.Prelude.{◌≡◌, ◌+◌, ◌<◌, ◌^◌, OnOk, length};
ghost use Rattle.sil_micro.specs.Codes.{appended};
ghost use Rattle.exp_tables.specs.TableParts.{part_code, read_code, walk_code};

use crate::words::first_word;
use sil_micro::{Code, op};
use std::alloc::AllocError;

/// Statement k begins and reads a specifier.
pub(crate) fn append_read(code: &mut Code, k: u32, s: i64) -> Result<(), AllocError>
    requires room { length code.old.ops + 500 < 2 ^ 32 }
    ensures grown { OnOk result (code.new ≡ appended code.old (read_code k s)) }
    ensures count { OnOk result (length code.new.ops ≡ length code.old.ops + 12) }
{
    code.append(&[
        op!(begin k),
        op!(number 4, 0),
        op!(fixed 5, Descr),
        op!(number 11, 1),
        op!(number 1, s),
        op!(load A 2, 1),
        op!(load F 3, 1),
        op!(load V 6, 1),
        op!(Add 1, 1, 5),
        op!(load A 7, 1),
        op!(load V 8, 1),
        op!(Add 9, 2, 7),
    ])?;
    Ok(())
}

/// The characters are walked from a table on.
pub(crate) fn append_walk(code: &mut Code, t: u16, stype: i64, error: u32) -> Result<(), AllocError>
    requires room { length code.old.ops + 500 < 2 ^ 32 }
    ensures grown { OnOk result (code.new ≡ appended code.old (walk_code t stype error)) }
    ensures count { OnOk result (length code.new.ops ≡ length code.old.ops + 34) }
{
    let first = first_word(t);
    code.append(&[
        op!(number 10, 0),
        op!(number 13, 0),
        op!(number 12, first),
        op!(jump_if Eq 10, 8, Op(30)),
        op!(Add 1, 9, 10),
        op!(load_char 1, 1),
        op!(Add 1, 1, 1),
        op!(Add 1, 1, 12),
        op!(load_word Tables 14, 1),
        op!(Add 1, 1, 11),
        op!(load_word Tables 15, 1),
        op!(number 0, 256),
        op!(Rem 1, 14, 0),
        op!(Div 14, 14, 0),
        op!(Rem 0, 14, 0),
        op!(jump_if Eq 0, 4, Op(17)),
        op!(copy 13, 15),
        op!(jump_if Eq 1, 4, Op(28)),
        op!(jump_if Eq 1, 11, Op(26)),
        op!(number 15, 2),
        op!(jump_if Eq 1, 15, Op(32)),
        op!(number 15, 3),
        op!(jump_if Eq 1, 15, Op(33)),
        op!(number 1, stype),
        op!(store A 1, 4),
        op!(jump Statement(error)),
        op!(Sub 14, 14, 0),
        op!(Add 12, 14, 14),
        op!(Add 10, 10, 11),
        op!(jump Op(3)),
        op!(number 14, 0),
        op!(jump Op(34)),
        op!(Add 10, 10, 11),
        op!(number 14, 1),
    ])?;
    Ok(())
}

/// What a walk leaves, and where it goes.
pub(crate) fn append_part(
    code: &mut Code,
    stype: i64,
    s1: i64,
    s2: i64,
    run_out: u32,
    stop: u32,
) -> Result<(), AllocError>
    requires room { length code.old.ops + 500 < 2 ^ 32 }
    ensures grown { OnOk result (code.new ≡ appended code.old (part_code stype s1 s2 run_out stop)) }
    ensures count { OnOk result (length code.new.ops ≡ length code.old.ops + 14) }
{
    code.append(&[
        op!(number 1, stype),
        op!(store A 1, 13),
        op!(number 1, s1),
        op!(store_cell 1, 2, 3, 6),
        op!(Add 1, 1, 5),
        op!(store_cell 1, 7, 4, 10),
        op!(number 1, s2),
        op!(Add 1, 1, 5),
        op!(Add 7, 7, 10),
        op!(store A 1, 7),
        op!(Sub 8, 8, 10),
        op!(store V 1, 8),
        op!(jump_if Eq 14, 4, Statement(run_out)),
        op!(jump Statement(stop)),
    ])?;
    Ok(())
}
