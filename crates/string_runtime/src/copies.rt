// The macros that copy characters, one function each.
ghost use Rattle.std.specs.Prelude.{◌+◌, ◌<◌, ◌^◌, ◌∷◌, [], OnOk, false, length};
ghost use Rattle.sil_macros.specs.declared.names.Macro.TheVariants.{Apdsp, Date, Rplace};
ghost use Rattle.string_clauses.specs.StringTable.{string_clause, string_visits};
ghost use Rattle.sil_model.specs.declared.program.Arg.TheVariants.{Place};
ghost use Rattle.sil_micro.specs.Expands.{Expands};

use crate::parts::{
    append_first, append_keep_first, append_keep_second, append_length, append_start, append_text,
};
use sil_micro::{Code, op};
use sil_model::Specials;
use std::alloc::AllocError;

/// `APDSP S1,S2`: the characters of S2 behind those of S1, lowest first; then S1.L := S1.L + S2.L.
pub fn apdsp(
    code: &mut Code,
    k: u32,
    specials: &Specials,
    s1: i64,
    s2: i64,
) -> Result<(), AllocError>
    requires statement { k < length code.old.entries }
    requires room { length code.old.ops + 1500 < 2 ^ 32 }
    ensures { OnOk result (Expands code.old code.new k specials.now (Place s1 ∷ Place s2 ∷ []) (string_clause Apdsp) (string_visits Apdsp) false) }
{
    let _ = specials;
    code.begin_statement(k);
    code.append(&[
        op!(begin k),
        op!(number 1, s1),
        op!(load A 2, 1),
        op!(fixed 5, Descr),
        op!(Add 6, 1, 5),
        op!(load A 3, 6),
        op!(load V 4, 6),
        op!(Add 2, 2, 3),
        op!(Add 2, 2, 4),
        op!(number 1, s2),
        op!(load A 7, 1),
        op!(Add 1, 1, 5),
        op!(load A 8, 1),
        op!(load V 9, 1),
        op!(Add 7, 7, 8),
        op!(Add 4, 4, 9),
        op!(number 10, 0),
        op!(number 11, 1),
        op!(jump_if Eq 10, 9, Op(25)),
        op!(Add 12, 7, 10),
        op!(load_char 13, 12),
        op!(Add 12, 2, 10),
        op!(store_char 12, 13),
        op!(Add 10, 10, 11),
        op!(jump Op(18)),
        op!(store V 6, 4),
    ])?;
    Ok(())
}

/// `DATE S`: the date into the hidden buffer; S := (its address, 0, 0, 0, 8).
pub fn date(code: &mut Code, k: u32, specials: &Specials, s: i64) -> Result<(), AllocError>
    requires statement { k < length code.old.entries }
    requires room { length code.old.ops + 1500 < 2 ^ 32 }
    ensures { OnOk result (Expands code.old code.new k specials.now (Place s ∷ []) (string_clause Date) (string_visits Date) false) }
{
    let _ = specials;
    code.begin_statement(k);
    code.append(&[
        op!(begin k),
        op!(number 4, 0),
        op!(number 11, 1),
        op!(fixed 2, Date),
        op!(fixed 3, Hidden),
        op!(number 9, 8),
        op!(number 10, 8),
        op!(number 12, 256),
        op!(jump_if Eq 10, 4, Op(14)),
        op!(store_char 3, 2),
        op!(Div 2, 2, 12),
        op!(Add 3, 3, 11),
        op!(Sub 10, 10, 11),
        op!(jump Op(8)),
    ])?;
    append_text(code, s)?;
    Ok(())
}

/// `RPLACE S1,S2,S3`: each character of S1 that stands in S2 is replaced by the one of S3 at the
/// last place where S2 has it.
pub fn rplace(
    code: &mut Code,
    k: u32,
    specials: &Specials,
    s1: i64,
    s2: i64,
    s3: i64,
) -> Result<(), AllocError>
    requires statement { k < length code.old.entries }
    requires room { length code.old.ops + 1500 < 2 ^ 32 }
    ensures { OnOk result (Expands code.old code.new k specials.now (Place s1 ∷ Place s2 ∷ Place s3 ∷ []) (string_clause Rplace) (string_visits Rplace) false) }
{
    let _ = specials;
    code.begin_statement(k);
    append_start(code, k)?;
    append_length(code, s1)?;
    append_first(code, s1)?;
    append_keep_first(code)?;
    append_length(code, s2)?;
    append_first(code, s2)?;
    append_keep_second(code)?;
    append_length(code, s3)?;
    append_first(code, s3)?;
    code.append(&[
        op!(jump_if Eq 15, 7, Op(3)),
        op!(number 1, 3),
        op!(end 1),
        op!(number 10, 0),
        op!(number 8, 256),
        op!(jump_if Eq 10, 8, Op(9)),
        op!(store_word Scratch 10, 4),
        op!(Add 10, 10, 11),
        op!(jump Op(5)),
        op!(number 10, 0),
        op!(jump_if Eq 10, 15, Op(19)),
        op!(Add 1, 14, 10),
        op!(load_char 1, 1),
        op!(Add 3, 2, 10),
        op!(load_char 3, 3),
        op!(Add 3, 3, 11),
        op!(store_word Scratch 1, 3),
        op!(Add 10, 10, 11),
        op!(jump Op(10)),
        op!(number 10, 0),
        op!(jump_if Eq 10, 13, Op(29)),
        op!(Add 1, 12, 10),
        op!(load_char 3, 1),
        op!(load_word Scratch 3, 3),
        op!(jump_if Eq 3, 4, Op(27)),
        op!(Sub 3, 3, 11),
        op!(store_char 1, 3),
        op!(Add 10, 10, 11),
        op!(jump Op(20)),
    ])?;
    Ok(())
}
