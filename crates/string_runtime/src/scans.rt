// The macros that walk characters until they have an answer, one function each.
ghost use Rattle.std.specs.Prelude.{◌+◌, ◌<◌, ◌≤◌, ◌^◌, ◌∷◌, [], All, OnOk, false, length};
ghost use Rattle.sil_macros.specs.declared.names.Macro.TheVariants.{Getbal, Lexcmp, Trimsp, Varid};
ghost use Rattle.string_clauses.specs.StringTable.{string_clause, string_visits};
ghost use Rattle.sil_model.specs.declared.program.Arg.TheVariants.{Goto, Place};
ghost use Rattle.sil_micro.specs.Expands.{Expands};
ghost use Rattle.exp_common.specs.Locations.{LocatesWithin};

use crate::parts::{
    append_copy_first, append_copy_length, append_first, append_length, append_shorter,
    append_start,
};
use exp_common::{ByAnswer, ByOrder};
use sil_base::MAX_STATEMENTS;
use sil_micro::{Code, op};
use sil_model::Specials;
use std::alloc::AllocError;

/// `VARID D,S`: the hash of the characters, as a bucket's distance and what is above.
pub fn varid(code: &mut Code, k: u32, specials: &Specials, d: i64, s: i64) -> Result<(), AllocError>
    requires statement { k < length code.old.entries }
    requires room { length code.old.ops + 1500 < 2 ^ 32 }
    ensures { OnOk result (Expands code.old code.new k specials.now (Place d ∷ Place s ∷ []) (string_clause Varid) (string_visits Varid) false) }
{
    let _ = specials;
    code.begin_statement(k);
    append_start(code, k)?;
    append_length(code, s)?;
    append_first(code, s)?;
    code.append(&[
        op!(number 9, 0),
        op!(number 10, 0),
        op!(number 12, 131),
        op!(number 13, 0x8000_0000),
        op!(jump_if Eq 10, 7, Op(12)),
        op!(Add 14, 2, 10),
        op!(load_char 15, 14),
        op!(Mul 9, 9, 12),
        op!(Add 9, 9, 15),
        op!(Rem 9, 9, 13),
        op!(Add 10, 10, 11),
        op!(jump Op(4)),
        op!(fixed 3, Obsiz),
        op!(Rem 14, 9, 3),
        op!(Mul 14, 5, 14),
        op!(Div 15, 9, 3),
        op!(number 3, 32768),
        op!(Rem 15, 15, 3),
        op!(number 1, d),
        op!(store_cell 1, 14, 4, 15),
    ])?;
    Ok(())
}

/// `TRIMSP S1,S2`: S1 := S2 with the length lowered by the blanks at its end.
pub fn trimsp(
    code: &mut Code,
    k: u32,
    specials: &Specials,
    s1: i64,
    s2: i64,
) -> Result<(), AllocError>
    requires statement { k < length code.old.entries }
    requires room { length code.old.ops + 1500 < 2 ^ 32 }
    ensures { OnOk result (Expands code.old code.new k specials.now (Place s1 ∷ Place s2 ∷ []) (string_clause Trimsp) (string_visits Trimsp) false) }
{
    let _ = specials;
    code.begin_statement(k);
    code.append(&[
        op!(begin k),
        op!(number 1, s2),
        op!(load A 2, 1),
        op!(load F 3, 1),
        op!(load V 4, 1),
        op!(fixed 5, Descr),
        op!(Add 1, 1, 5),
        op!(load A 6, 1),
        op!(load V 7, 1),
        op!(Add 8, 2, 6),
        op!(number 9, 0),
        op!(number 10, 1),
        op!(number 11, 32),
        op!(jump_if Eq 7, 9, Op(20)),
        op!(Sub 12, 7, 10),
        op!(Add 13, 8, 12),
        op!(load_char 14, 13),
        op!(jump_if Ne 14, 11, Op(20)),
        op!(copy 7, 12),
        op!(jump Op(13)),
        op!(number 1, s1),
        op!(store_cell 1, 2, 3, 4),
        op!(fixed 5, Descr),
        op!(Add 1, 1, 5),
        op!(store_cell 1, 6, 9, 7),
    ])?;
    Ok(())
}

/// `LEXCMP S1,S2,L1,L2,L3`: the characters in order of codes; a proper prefix is less.
pub fn lexcmp(
    code: &mut Code,
    k: u32,
    specials: &Specials,
    s1: i64,
    s2: i64,
    to: ByOrder,
) -> Result<(), AllocError>
    requires statement { k < length code.old.entries }
    requires few { length code.old.entries ≤ MAX_STATEMENTS }
    requires room { length code.old.ops + 1500 < 2 ^ 32 }
    requires within { All (LocatesWithin (length code.old.entries)) (Place s1 ∷ Place s2 ∷ Goto to.greater ∷ Goto to.equal ∷ Goto to.less ∷ []) }
    ensures { OnOk result (Expands code.old code.new k specials.now (Place s1 ∷ Place s2 ∷ Goto to.greater ∷ Goto to.equal ∷ Goto to.less ∷ []) (string_clause Lexcmp) (string_visits Lexcmp) false) }
{
    let _ = specials;
    let (greater, equal, less) = to.statements(k);
    code.begin_statement(k);
    append_start(code, k)?;
    append_length(code, s1)?;
    append_copy_length(code)?;
    append_length(code, s2)?;
    append_shorter(code)?;
    append_first(code, s1)?;
    append_copy_first(code)?;
    append_first(code, s2)?;
    code.append(&[
        op!(copy 14, 2),
        op!(copy 12, 7),
        op!(number 10, 0),
        op!(jump_if Eq 10, 12, Op(14)),
        op!(Add 1, 13, 10),
        op!(load_char 1, 1),
        op!(Add 2, 14, 10),
        op!(load_char 2, 2),
        op!(jump_if Ne 1, 2, Op(11)),
        op!(Add 10, 10, 11),
        op!(jump Op(3)),
        op!(jump_if Lt 2, 1, Statement(greater)),
        op!(jump_if Lt 1, 2, Statement(less)),
        op!(jump Statement(equal)),
        op!(jump_if Lt 9, 8, Statement(greater)),
        op!(jump_if Lt 8, 9, Statement(less)),
        op!(jump Statement(equal)),
    ])?;
    Ok(())
}

/// `GETBAL S,D,LF,LS`: S.L grows by the least number of characters that are balanced.
pub fn getbal(
    code: &mut Code,
    k: u32,
    specials: &Specials,
    s: i64,
    d: i64,
    to: ByAnswer,
) -> Result<(), AllocError>
    requires statement { k < length code.old.entries }
    requires few { length code.old.entries ≤ MAX_STATEMENTS }
    requires room { length code.old.ops + 1500 < 2 ^ 32 }
    requires within { All (LocatesWithin (length code.old.entries)) (Place s ∷ Place d ∷ Goto to.no ∷ Goto to.yes ∷ []) }
    ensures { OnOk result (Expands code.old code.new k specials.now (Place s ∷ Place d ∷ Goto to.no ∷ Goto to.yes ∷ []) (string_clause Getbal) (string_visits Getbal) false) }
{
    let _ = specials;
    let (failure, success) = to.statements(k);
    code.begin_statement(k);
    code.append(&[
        op!(begin k),
        op!(number 4, 0),
        op!(fixed 5, Descr),
        op!(number 1, s),
        op!(Add 6, 1, 5),
        op!(load V 7, 6),
        op!(number 3, d),
        op!(load A 8, 3),
        op!(jump_if Ge 4, 8, Statement(failure)),
        op!(load A 2, 1),
        op!(load A 3, 6),
        op!(Add 2, 2, 3),
        op!(Add 2, 2, 7),
        op!(number 9, 0),
        op!(number 10, 0),
        op!(number 11, 1),
        op!(number 12, 41),
        op!(number 13, 40),
        op!(jump_if Eq 10, 8, Statement(failure)),
        op!(Add 14, 2, 10),
        op!(load_char 15, 14),
        op!(Add 10, 10, 11),
        op!(jump_if Eq 15, 12, Op(26)),
        op!(jump_if Eq 15, 13, Op(29)),
        op!(jump_if Eq 9, 4, Op(31)),
        op!(jump Op(18)),
        op!(jump_if Eq 9, 4, Statement(failure)),
        op!(Sub 9, 9, 11),
        op!(jump Op(24)),
        op!(Add 9, 9, 11),
        op!(jump Op(18)),
        op!(Add 7, 7, 10),
        op!(store V 6, 7),
        op!(jump Statement(success)),
    ])?;
    Ok(())
}
