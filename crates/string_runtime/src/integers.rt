// The macros between integers and characters, one function each.
ghost use Rattle.std.specs.Prelude.{◌≡◌, ◌+◌, ◌<◌, ◌≤◌, ◌^◌, ◌∷◌, [], All, IfSome, None, OnOk, Some, false, length};
ghost use Rattle.sil_macros.specs.declared.names.Macro.TheVariants.{Intspc, Spcint};
ghost use Rattle.string_clauses.specs.StringTable.{string_clause, string_visits};
ghost use Rattle.sil_model.specs.declared.program.Arg.TheVariants.{Goto, Place};
ghost use Rattle.sil_micro.specs.Expands.{Expands};
ghost use Rattle.exp_common.specs.Locations.{LocatesWithin};

use crate::parts::{append_first, append_length, append_start, append_text};
use exp_common::ByAnswer;
use sil_base::MAX_STATEMENTS;
use sil_micro::{Code, op};
use sil_model::Specials;
use std::alloc::AllocError;

/// `INTSPC S,D`: the decimal text of D.A into the hidden buffer; S := (its address, 0, 0, 0, its
/// length).
pub fn intspc(
    code: &mut Code,
    k: u32,
    specials: &Specials,
    s: i64,
    d: i64,
) -> Result<(), AllocError>
    requires statement { k < length code.old.entries }
    requires room { length code.old.ops + 1500 < 2 ^ 32 }
    ensures { OnOk result (Expands code.old code.new k specials.now (Place s ∷ Place d ∷ []) (string_clause Intspc) (string_visits Intspc) false) }
{
    let _ = specials;
    code.begin_statement(k);
    code.append(&[
        op!(begin k),
        op!(number 4, 0),
        op!(number 11, 1),
        op!(number 1, d),
        op!(load A 2, 1),
        op!(number 12, 10),
        op!(number 13, 48),
        op!(number 10, 100),
        op!(number 9, 0),
        op!(number 14, 0),
        op!(jump_if Lt 2, 4, Op(13)),
        op!(Sub 2, 4, 2),
        op!(jump Op(14)),
        op!(number 14, 1),
        op!(Rem 15, 2, 12),
        op!(Sub 15, 13, 15),
        op!(Sub 10, 10, 11),
        op!(store_word Scratch 10, 15),
        op!(Add 9, 9, 11),
        op!(Div 2, 2, 12),
        op!(jump_if Ne 2, 4, Op(14)),
        op!(jump_if Eq 14, 4, Op(26)),
        op!(number 15, 45),
        op!(Sub 10, 10, 11),
        op!(store_word Scratch 10, 15),
        op!(Add 9, 9, 11),
        op!(copy 8, 9),
        op!(fixed 3, Hidden),
        op!(jump_if Eq 8, 4, Op(35)),
        op!(load_word Scratch 15, 10),
        op!(store_char 3, 15),
        op!(Add 3, 3, 11),
        op!(Add 10, 10, 11),
        op!(Sub 8, 8, 11),
        op!(jump Op(28)),
    ])?;
    append_text(code, s)?;
    Ok(())
}

/// `SPCINT D,S,LF,LS`: D := (the integer that S spells, 0, the value of I).
pub fn spcint(
    code: &mut Code,
    k: u32,
    specials: &Specials,
    d: i64,
    s: i64,
    to: ByAnswer,
) -> Result<(), AllocError>
    requires statement { k < length code.old.entries }
    requires few { length code.old.entries ≤ MAX_STATEMENTS }
    requires room { length code.old.ops + 1500 < 2 ^ 32 }
    requires value { IfSome specials.now.int_code (λ v. v < 2 ^ 63) }
    requires within { All (LocatesWithin (length code.old.entries)) (Place d ∷ Place s ∷ Goto to.no ∷ Goto to.yes ∷ []) }
    ensures { OnOk result (Expands code.old code.new k specials.now (Place d ∷ Place s ∷ Goto to.no ∷ Goto to.yes ∷ []) (string_clause Spcint) (string_visits Spcint) false) }
{
    match specials.int_code {
        None => unspelled(code, k, specials, d, s, to),
        Some(value) => spelled(code, k, specials, d, s, to, value),
    }
}

// where I has no value
fn unspelled(
    code: &mut Code,
    k: u32,
    specials: &Specials,
    d: i64,
    s: i64,
    to: ByAnswer,
) -> Result<(), AllocError>
    requires statement { k < length code.old.entries }
    requires room { length code.old.ops + 1500 < 2 ^ 32 }
    requires value { specials.now.int_code ≡ None }
    ensures { OnOk result (Expands code.old code.new k specials.now (Place d ∷ Place s ∷ Goto to.no ∷ Goto to.yes ∷ []) (string_clause Spcint) (string_visits Spcint) false) }
{
    let _ = specials;
    let _ = d;
    let _ = s;
    let _ = to;
    code.begin_statement(k);
    code.append(&[op!(begin k), op!(number 6, 3), op!(end 6)])?;
    Ok(())
}

// where I has a value
fn spelled(
    code: &mut Code,
    k: u32,
    specials: &Specials,
    d: i64,
    s: i64,
    to: ByAnswer,
    code_value: u64,
) -> Result<(), AllocError>
    requires statement { k < length code.old.entries }
    requires few { length code.old.entries ≤ MAX_STATEMENTS }
    requires room { length code.old.ops + 1500 < 2 ^ 32 }
    requires value { specials.now.int_code ≡ Some code_value }
    requires small { code_value < 2 ^ 63 }
    requires within { All (LocatesWithin (length code.old.entries)) (Place d ∷ Place s ∷ Goto to.no ∷ Goto to.yes ∷ []) }
    ensures { OnOk result (Expands code.old code.new k specials.now (Place d ∷ Place s ∷ Goto to.no ∷ Goto to.yes ∷ []) (string_clause Spcint) (string_visits Spcint) false) }
{
    let _ = specials;
    let (failure, success) = to.statements(k);
    code.begin_statement(k);
    append_start(code, k)?;
    append_length(code, s)?;
    append_first(code, s)?;
    code.append(&[
        op!(number 9, 0),
        op!(number 10, 0),
        op!(number 12, 0),
        op!(number 8, -0x7fff_ffff_ffff_ffff),
        op!(number 3, -922_337_203_685_477_580),
        op!(number 13, 10),
        op!(number 14, 48),
        op!(jump_if Eq 7, 4, Op(32)),
        op!(Add 15, 2, 10),
        op!(load_char 15, 15),
        op!(number 1, 45),
        op!(jump_if Eq 15, 1, Op(16)),
        op!(number 1, 43),
        op!(jump_if Ne 15, 1, Op(20)),
        op!(number 10, 1),
        op!(jump Op(19)),
        op!(number 12, 1),
        op!(number 8, -0x8000_0000_0000_0000),
        op!(number 10, 1),
        op!(jump_if Eq 7, 10, Statement(failure)),
        op!(jump_if Eq 10, 7, Op(32)),
        op!(Add 15, 2, 10),
        op!(load_char 15, 15),
        op!(Sub 15, 15, 14),
        op!(jump_if Geu 15, 13, Statement(failure)),
        op!(jump_if Lt 9, 3, Statement(failure)),
        op!(Mul 9, 9, 13),
        op!(Sub 1, 9, 8),
        op!(jump_if Ltu 1, 15, Statement(failure)),
        op!(Sub 9, 9, 15),
        op!(Add 10, 10, 11),
        op!(jump Op(20)),
        op!(jump_if Ne 12, 4, Op(34)),
        op!(Sub 9, 4, 9),
        op!(number 1, d),
        op!(number 6, code_value as i64),
        op!(store_cell 1, 9, 4, 6),
        op!(jump Statement(success)),
    ])?;
    Ok(())
}
