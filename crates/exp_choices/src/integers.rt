// The macros on integers, one function each.
ghost use Rattle.std.specs.Prelude.{◌+◌, ◌<◌, ◌≤◌, ◌^◌, ◌∷◌, [], All, OnOk, false, length};
ghost use Rattle.choice_clauses.specs.ChoiceTable.{choice_visits};
ghost use Rattle.sil_model.specs.Effects.{on_memory};
ghost use Rattle.choice_clauses.specs.IntegerClauses.{divide, mnsint, mult, multc, subtrt, sum};
ghost use Rattle.sil_model.specs.declared.program.Arg.TheVariants.{Goto, Number, Place};
ghost use Rattle.sil_macros.specs.declared.names.Macro.TheVariants.{Divide, Mnsint, Mult, Multc, Subtrt, Sum};
ghost use Rattle.sil_micro.specs.Expands.{Expands};
ghost use Rattle.exp_common.specs.Locations.{LocatesWithin};

use exp_common::ByAnswer;
use sil_base::MAX_STATEMENTS;
use sil_micro::{Code, op};
use sil_model::Specials;
use std::alloc::AllocError;

/// `DIVIDE D1,D2,D3,LF,LS`: D1 := D2.A by D3.A, cut towards zero.
pub fn divide(
    code: &mut Code,
    k: u32,
    specials: &Specials,
    d1: i64,
    d2: i64,
    d3: i64,
    to: ByAnswer,
) -> Result<(), AllocError>
    requires statement { k < length code.old.entries }
    requires few { length code.old.entries ≤ MAX_STATEMENTS }
    requires room { length code.old.ops + 1500 < 2 ^ 32 }
    requires within { All (LocatesWithin (length code.old.entries)) (Place d1 ∷ Place d2 ∷ Place d3 ∷ Goto to.no ∷ Goto to.yes ∷ []) }
    ensures { OnOk result (Expands code.old code.new k specials.now (Place d1 ∷ Place d2 ∷ Place d3 ∷ Goto to.no ∷ Goto to.yes ∷ []) (on_memory divide) (choice_visits Divide) false) }
{
    let (no, yes) = to.statements(k);
    code.begin_statement(k);
    code.append(&[
        op!(begin k),
        op!(number 1, d2),
        op!(load A 2, 1),
        op!(load F 3, 1),
        op!(load V 4, 1),
        op!(number 1, d3),
        op!(load A 5, 1),
        op!(number 6, 0),
        op!(jump_if Eq 5, 6, Statement(no)),
        op!(number 6, -1),
        op!(jump_if Ne 5, 6, Op(13)),
        op!(number 6, i64::MIN),
        op!(jump_if Eq 2, 6, Statement(no)),
        op!(Div 6, 2, 5),
        op!(number 1, d1),
        op!(store_cell 1, 6, 3, 4),
        op!(jump Statement(yes)),
    ])?;
    Ok(())
}

/// `MNSINT D1,D2,LF,LS`: D1 := -D2.A.
pub fn mnsint(
    code: &mut Code,
    k: u32,
    specials: &Specials,
    d1: i64,
    d2: i64,
    to: ByAnswer,
) -> Result<(), AllocError>
    requires statement { k < length code.old.entries }
    requires few { length code.old.entries ≤ MAX_STATEMENTS }
    requires room { length code.old.ops + 1500 < 2 ^ 32 }
    requires within { All (LocatesWithin (length code.old.entries)) (Place d1 ∷ Place d2 ∷ Goto to.no ∷ Goto to.yes ∷ []) }
    ensures { OnOk result (Expands code.old code.new k specials.now (Place d1 ∷ Place d2 ∷ Goto to.no ∷ Goto to.yes ∷ []) (on_memory mnsint) (choice_visits Mnsint) false) }
{
    let (no, yes) = to.statements(k);
    code.begin_statement(k);
    code.append(&[
        op!(begin k),
        op!(number 1, d2),
        op!(load A 2, 1),
        op!(load F 3, 1),
        op!(load V 4, 1),
        op!(number 5, i64::MIN),
        op!(jump_if Eq 2, 5, Statement(no)),
        op!(number 5, 0),
        op!(Sub 6, 5, 2),
        op!(number 1, d1),
        op!(store_cell 1, 6, 3, 4),
        op!(jump Statement(yes)),
    ])?;
    Ok(())
}

/// `MULT D1,D2,D3,LF,LS`: D1 := D2.A * D3.A.
pub fn mult(
    code: &mut Code,
    k: u32,
    specials: &Specials,
    d1: i64,
    d2: i64,
    d3: i64,
    to: ByAnswer,
) -> Result<(), AllocError>
    requires statement { k < length code.old.entries }
    requires few { length code.old.entries ≤ MAX_STATEMENTS }
    requires room { length code.old.ops + 1500 < 2 ^ 32 }
    requires within { All (LocatesWithin (length code.old.entries)) (Place d1 ∷ Place d2 ∷ Place d3 ∷ Goto to.no ∷ Goto to.yes ∷ []) }
    ensures { OnOk result (Expands code.old code.new k specials.now (Place d1 ∷ Place d2 ∷ Place d3 ∷ Goto to.no ∷ Goto to.yes ∷ []) (on_memory mult) (choice_visits Mult) false) }
{
    let (no, yes) = to.statements(k);
    code.begin_statement(k);
    code.append(&[
        op!(begin k),
        op!(number 1, d2),
        op!(load A 2, 1),
        op!(load F 3, 1),
        op!(load V 4, 1),
        op!(number 1, d3),
        op!(load A 5, 1),
        op!(Mul 6, 2, 5),
        op!(MulHigh 7, 2, 5),
        op!(number 8, 0),
        op!(jump_if Ge 6, 8, Op(12)),
        op!(number 8, -1),
        op!(jump_if Ne 7, 8, Statement(no)),
        op!(number 1, d1),
        op!(store_cell 1, 6, 3, 4),
        op!(jump Statement(yes)),
    ])?;
    Ok(())
}

/// `MULTC D1,D2,N`: D1 := (D2.A * N, 0, 0).
pub fn multc(
    code: &mut Code,
    k: u32,
    specials: &Specials,
    d1: i64,
    d2: i64,
    n: i64,
) -> Result<(), AllocError>
    requires statement { k < length code.old.entries }
    requires room { length code.old.ops + 1500 < 2 ^ 32 }
    ensures { OnOk result (Expands code.old code.new k specials.now (Place d1 ∷ Place d2 ∷ Number n ∷ []) (on_memory multc) (choice_visits Multc) false) }
{
    code.begin_statement(k);
    code.append(&[
        op!(begin k),
        op!(number 1, d2),
        op!(load A 2, 1),
        op!(number 3, n),
        op!(Mul 2, 2, 3),
        op!(number 1, d1),
        op!(number 3, 0),
        op!(store_cell 1, 2, 3, 3),
    ])?;
    Ok(())
}

/// `SUBTRT D1,D2,D3,LF,LS`: D1 := D2.A - D3.A.
pub fn subtrt(
    code: &mut Code,
    k: u32,
    specials: &Specials,
    d1: i64,
    d2: i64,
    d3: i64,
    to: ByAnswer,
) -> Result<(), AllocError>
    requires statement { k < length code.old.entries }
    requires few { length code.old.entries ≤ MAX_STATEMENTS }
    requires room { length code.old.ops + 1500 < 2 ^ 32 }
    requires within { All (LocatesWithin (length code.old.entries)) (Place d1 ∷ Place d2 ∷ Place d3 ∷ Goto to.no ∷ Goto to.yes ∷ []) }
    ensures { OnOk result (Expands code.old code.new k specials.now (Place d1 ∷ Place d2 ∷ Place d3 ∷ Goto to.no ∷ Goto to.yes ∷ []) (on_memory subtrt) (choice_visits Subtrt) false) }
{
    let (no, yes) = to.statements(k);
    code.begin_statement(k);
    code.append(&[
        op!(begin k),
        op!(number 1, d2),
        op!(load A 2, 1),
        op!(load F 3, 1),
        op!(load V 4, 1),
        op!(number 1, d3),
        op!(load A 5, 1),
        op!(Sub 6, 2, 5),
        op!(number 7, 0),
        op!(jump_if Lt 5, 7, Op(12)),
        op!(jump_if Lt 2, 6, Statement(no)),
        op!(jump Op(13)),
        op!(jump_if Ge 2, 6, Statement(no)),
        op!(number 1, d1),
        op!(store_cell 1, 6, 3, 4),
        op!(jump Statement(yes)),
    ])?;
    Ok(())
}

/// `SUM D1,D2,D3,LF,LS`: D1 := D2.A + D3.A.
pub fn sum(
    code: &mut Code,
    k: u32,
    specials: &Specials,
    d1: i64,
    d2: i64,
    d3: i64,
    to: ByAnswer,
) -> Result<(), AllocError>
    requires statement { k < length code.old.entries }
    requires few { length code.old.entries ≤ MAX_STATEMENTS }
    requires room { length code.old.ops + 1500 < 2 ^ 32 }
    requires within { All (LocatesWithin (length code.old.entries)) (Place d1 ∷ Place d2 ∷ Place d3 ∷ Goto to.no ∷ Goto to.yes ∷ []) }
    ensures { OnOk result (Expands code.old code.new k specials.now (Place d1 ∷ Place d2 ∷ Place d3 ∷ Goto to.no ∷ Goto to.yes ∷ []) (on_memory sum) (choice_visits Sum) false) }
{
    let (no, yes) = to.statements(k);
    code.begin_statement(k);
    code.append(&[
        op!(begin k),
        op!(number 1, d2),
        op!(load A 2, 1),
        op!(load F 3, 1),
        op!(load V 4, 1),
        op!(number 1, d3),
        op!(load A 5, 1),
        op!(Add 6, 2, 5),
        op!(number 7, 0),
        op!(jump_if Lt 5, 7, Op(12)),
        op!(jump_if Lt 6, 2, Statement(no)),
        op!(jump Op(13)),
        op!(jump_if Ge 6, 2, Statement(no)),
        op!(number 1, d1),
        op!(store_cell 1, 6, 3, 4),
        op!(jump Statement(yes)),
    ])?;
    Ok(())
}
