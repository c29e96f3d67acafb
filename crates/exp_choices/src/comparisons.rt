// The macros that compare, one function each.
ghost use Rattle.std.specs.Prelude.{◌+◌, ◌<◌, ◌≤◌, ◌^◌, ◌∷◌, [], All, OnOk, false, length};
ghost use Rattle.choice_clauses.specs.ComparisonClauses.{acomp, acompc, aeql, aeqlc, aeqlic, chkval, deql, lcomp, leqlc, testf, testfi, vcmpic, veql, veqlc};
ghost use Rattle.choice_clauses.specs.ChoiceTable.{choice_visits};
ghost use Rattle.sil_model.specs.Effects.{on_memory};
ghost use Rattle.sil_model.specs.declared.program.Arg.TheVariants.{Flag, Goto, Number, Place};
ghost use Rattle.sil_macros.specs.declared.names.Macro.TheVariants.{Acomp, Acompc, Aeql, Aeqlc, Aeqlic, Chkval, Deql, Lcomp, Leqlc, Testf, Testfi, Vcmpic, Veql, Veqlc};
ghost use Rattle.sil_micro.specs.Expands.{Expands};
ghost use Rattle.exp_common.specs.Locations.{LocatesWithin};

use exp_common::{ByAnswer, ByOrder};
use sil_base::MAX_STATEMENTS;
use sil_micro::{Code, op};
use sil_model::Specials;
use std::alloc::AllocError;

/// `ACOMP D1,D2,L1,L2,L3`: D1.A with D2.A.
pub fn acomp(
    code: &mut Code,
    k: u32,
    specials: &Specials,
    d1: i64,
    d2: i64,
    to: ByOrder,
) -> Result<(), AllocError>
    requires statement { k < length code.old.entries }
    requires few { length code.old.entries ≤ MAX_STATEMENTS }
    requires room { length code.old.ops + 1500 < 2 ^ 32 }
    requires within { All (LocatesWithin (length code.old.entries)) (Place d1 ∷ Place d2 ∷ Goto to.greater ∷ Goto to.equal ∷ Goto to.less ∷ []) }
    ensures { OnOk result (Expands code.old code.new k specials.now (Place d1 ∷ Place d2 ∷ Goto to.greater ∷ Goto to.equal ∷ Goto to.less ∷ []) (on_memory acomp) (choice_visits Acomp) false) }
{
    let (greater, equal, less) = to.statements(k);
    code.begin_statement(k);
    code.append(&[
        op!(begin k),
        op!(number 1, d1),
        op!(load A 2, 1),
        op!(number 1, d2),
        op!(load A 3, 1),
        op!(jump_if Lt 3, 2, Statement(greater)),
        op!(jump_if Lt 2, 3, Statement(less)),
        op!(jump Statement(equal)),
    ])?;
    Ok(())
}

/// `ACOMPC D,N,L1,L2,L3`: D.A with N.
pub fn acompc(
    code: &mut Code,
    k: u32,
    specials: &Specials,
    d: i64,
    n: i64,
    to: ByOrder,
) -> Result<(), AllocError>
    requires statement { k < length code.old.entries }
    requires few { length code.old.entries ≤ MAX_STATEMENTS }
    requires room { length code.old.ops + 1500 < 2 ^ 32 }
    requires within { All (LocatesWithin (length code.old.entries)) (Place d ∷ Number n ∷ Goto to.greater ∷ Goto to.equal ∷ Goto to.less ∷ []) }
    ensures { OnOk result (Expands code.old code.new k specials.now (Place d ∷ Number n ∷ Goto to.greater ∷ Goto to.equal ∷ Goto to.less ∷ []) (on_memory acompc) (choice_visits Acompc) false) }
{
    let (greater, equal, less) = to.statements(k);
    code.begin_statement(k);
    code.append(&[
        op!(begin k),
        op!(number 1, d),
        op!(load A 2, 1),
        op!(number 3, n),
        op!(jump_if Lt 3, 2, Statement(greater)),
        op!(jump_if Lt 2, 3, Statement(less)),
        op!(jump Statement(equal)),
    ])?;
    Ok(())
}

/// `AEQL D1,D2,L1,L2`: D1.A with D2.A.
pub fn aeql(
    code: &mut Code,
    k: u32,
    specials: &Specials,
    d1: i64,
    d2: i64,
    to: ByAnswer,
) -> Result<(), AllocError>
    requires statement { k < length code.old.entries }
    requires few { length code.old.entries ≤ MAX_STATEMENTS }
    requires room { length code.old.ops + 1500 < 2 ^ 32 }
    requires within { All (LocatesWithin (length code.old.entries)) (Place d1 ∷ Place d2 ∷ Goto to.no ∷ Goto to.yes ∷ []) }
    ensures { OnOk result (Expands code.old code.new k specials.now (Place d1 ∷ Place d2 ∷ Goto to.no ∷ Goto to.yes ∷ []) (on_memory aeql) (choice_visits Aeql) false) }
{
    let (no, yes) = to.statements(k);
    code.begin_statement(k);
    code.append(&[
        op!(begin k),
        op!(number 1, d1),
        op!(load A 2, 1),
        op!(number 1, d2),
        op!(load A 3, 1),
        op!(jump_if Ne 2, 3, Statement(no)),
        op!(jump Statement(yes)),
    ])?;
    Ok(())
}

/// `AEQLC D,N,L1,L2`: D.A with N.
pub fn aeqlc(
    code: &mut Code,
    k: u32,
    specials: &Specials,
    d: i64,
    n: i64,
    to: ByAnswer,
) -> Result<(), AllocError>
    requires statement { k < length code.old.entries }
    requires few { length code.old.entries ≤ MAX_STATEMENTS }
    requires room { length code.old.ops + 1500 < 2 ^ 32 }
    requires within { All (LocatesWithin (length code.old.entries)) (Place d ∷ Number n ∷ Goto to.no ∷ Goto to.yes ∷ []) }
    ensures { OnOk result (Expands code.old code.new k specials.now (Place d ∷ Number n ∷ Goto to.no ∷ Goto to.yes ∷ []) (on_memory aeqlc) (choice_visits Aeqlc) false) }
{
    let (no, yes) = to.statements(k);
    code.begin_statement(k);
    code.append(&[
        op!(begin k),
        op!(number 1, d),
        op!(load A 2, 1),
        op!(number 3, n),
        op!(jump_if Ne 2, 3, Statement(no)),
        op!(jump Statement(yes)),
    ])?;
    Ok(())
}

/// `AEQLIC D,N1,N2,L1,L2`: [D.A + N1].A with N2.
pub fn aeqlic(
    code: &mut Code,
    k: u32,
    specials: &Specials,
    d: i64,
    n1: i64,
    n2: i64,
    to: ByAnswer,
) -> Result<(), AllocError>
    requires statement { k < length code.old.entries }
    requires few { length code.old.entries ≤ MAX_STATEMENTS }
    requires room { length code.old.ops + 1500 < 2 ^ 32 }
    requires within { All (LocatesWithin (length code.old.entries)) (Place d ∷ Number n1 ∷ Number n2 ∷ Goto to.no ∷ Goto to.yes ∷ []) }
    ensures { OnOk result (Expands code.old code.new k specials.now (Place d ∷ Number n1 ∷ Number n2 ∷ Goto to.no ∷ Goto to.yes ∷ []) (on_memory aeqlic) (choice_visits Aeqlic) false) }
{
    let (no, yes) = to.statements(k);
    code.begin_statement(k);
    code.append(&[
        op!(begin k),
        op!(number 1, d),
        op!(load A 1, 1),
        op!(number 2, n1),
        op!(Add 1, 1, 2),
        op!(load A 2, 1),
        op!(number 3, n2),
        op!(jump_if Ne 2, 3, Statement(no)),
        op!(jump Statement(yes)),
    ])?;
    Ok(())
}

/// `CHKVAL D1,D2,S,L1,L2,L3`: D2.A + S.L with D1.A.
pub fn chkval(
    code: &mut Code,
    k: u32,
    specials: &Specials,
    d1: i64,
    d2: i64,
    s: i64,
    to: ByOrder,
) -> Result<(), AllocError>
    requires statement { k < length code.old.entries }
    requires few { length code.old.entries ≤ MAX_STATEMENTS }
    requires room { length code.old.ops + 1500 < 2 ^ 32 }
    requires within { All (LocatesWithin (length code.old.entries)) (Place d1 ∷ Place d2 ∷ Place s ∷ Goto to.greater ∷ Goto to.equal ∷ Goto to.less ∷ []) }
    ensures { OnOk result (Expands code.old code.new k specials.now (Place d1 ∷ Place d2 ∷ Place s ∷ Goto to.greater ∷ Goto to.equal ∷ Goto to.less ∷ []) (on_memory chkval) (choice_visits Chkval) false) }
{
    let (greater, equal, less) = to.statements(k);
    code.begin_statement(k);
    code.append(&[
        op!(begin k),
        op!(number 1, d1),
        op!(load A 3, 1),
        op!(number 1, d2),
        op!(load A 2, 1),
        op!(number 1, s),
        op!(fixed 4, Descr),
        op!(Add 1, 1, 4),
        op!(load V 4, 1),
        op!(Add 2, 2, 4),
        op!(jump_if Lt 3, 2, Statement(greater)),
        op!(jump_if Lt 2, 3, Statement(less)),
        op!(jump Statement(equal)),
    ])?;
    Ok(())
}

/// `DEQL D1,D2,L1,L2`: D1 with D2: their A, F and V.
pub fn deql(
    code: &mut Code,
    k: u32,
    specials: &Specials,
    d1: i64,
    d2: i64,
    to: ByAnswer,
) -> Result<(), AllocError>
    requires statement { k < length code.old.entries }
    requires few { length code.old.entries ≤ MAX_STATEMENTS }
    requires room { length code.old.ops + 1500 < 2 ^ 32 }
    requires within { All (LocatesWithin (length code.old.entries)) (Place d1 ∷ Place d2 ∷ Goto to.no ∷ Goto to.yes ∷ []) }
    ensures { OnOk result (Expands code.old code.new k specials.now (Place d1 ∷ Place d2 ∷ Goto to.no ∷ Goto to.yes ∷ []) (on_memory deql) (choice_visits Deql) false) }
{
    let (no, yes) = to.statements(k);
    code.begin_statement(k);
    code.append(&[
        op!(begin k),
        op!(number 1, d1),
        op!(number 2, d2),
        op!(load A 3, 1),
        op!(load A 4, 2),
        op!(jump_if Ne 3, 4, Statement(no)),
        op!(load F 3, 1),
        op!(load F 4, 2),
        op!(jump_if Ne 3, 4, Statement(no)),
        op!(load V 3, 1),
        op!(load V 4, 2),
        op!(jump_if Ne 3, 4, Statement(no)),
        op!(jump Statement(yes)),
    ])?;
    Ok(())
}

/// `LCOMP S1,S2,L1,L2,L3`: S1.L with S2.L.
pub fn lcomp(
    code: &mut Code,
    k: u32,
    specials: &Specials,
    s1: i64,
    s2: i64,
    to: ByOrder,
) -> Result<(), AllocError>
    requires statement { k < length code.old.entries }
    requires few { length code.old.entries ≤ MAX_STATEMENTS }
    requires room { length code.old.ops + 1500 < 2 ^ 32 }
    requires within { All (LocatesWithin (length code.old.entries)) (Place s1 ∷ Place s2 ∷ Goto to.greater ∷ Goto to.equal ∷ Goto to.less ∷ []) }
    ensures { OnOk result (Expands code.old code.new k specials.now (Place s1 ∷ Place s2 ∷ Goto to.greater ∷ Goto to.equal ∷ Goto to.less ∷ []) (on_memory lcomp) (choice_visits Lcomp) false) }
{
    let (greater, equal, less) = to.statements(k);
    code.begin_statement(k);
    code.append(&[
        op!(begin k),
        op!(number 1, s1),
        op!(fixed 4, Descr),
        op!(Add 1, 1, 4),
        op!(load V 2, 1),
        op!(number 1, s2),
        op!(Add 1, 1, 4),
        op!(load V 3, 1),
        op!(jump_if Lt 3, 2, Statement(greater)),
        op!(jump_if Lt 2, 3, Statement(less)),
        op!(jump Statement(equal)),
    ])?;
    Ok(())
}

/// `LEQLC S,N,L1,L2`: S.L with N.
pub fn leqlc(
    code: &mut Code,
    k: u32,
    specials: &Specials,
    s: i64,
    n: i64,
    to: ByAnswer,
) -> Result<(), AllocError>
    requires statement { k < length code.old.entries }
    requires few { length code.old.entries ≤ MAX_STATEMENTS }
    requires room { length code.old.ops + 1500 < 2 ^ 32 }
    requires within { All (LocatesWithin (length code.old.entries)) (Place s ∷ Number n ∷ Goto to.no ∷ Goto to.yes ∷ []) }
    ensures { OnOk result (Expands code.old code.new k specials.now (Place s ∷ Number n ∷ Goto to.no ∷ Goto to.yes ∷ []) (on_memory leqlc) (choice_visits Leqlc) false) }
{
    let (no, yes) = to.statements(k);
    code.begin_statement(k);
    code.append(&[
        op!(begin k),
        op!(number 1, s),
        op!(fixed 4, Descr),
        op!(Add 1, 1, 4),
        op!(load V 2, 1),
        op!(number 3, n),
        op!(jump_if Ne 2, 3, Statement(no)),
        op!(jump Statement(yes)),
    ])?;
    Ok(())
}

/// `TESTF D,F,L1,L2`: to L2 where D.F has all bits of F, else to L1.
pub fn testf(
    code: &mut Code,
    k: u32,
    specials: &Specials,
    d: i64,
    flags: u32,
    to: ByAnswer,
) -> Result<(), AllocError>
    requires statement { k < length code.old.entries }
    requires few { length code.old.entries ≤ MAX_STATEMENTS }
    requires room { length code.old.ops + 1500 < 2 ^ 32 }
    requires within { All (LocatesWithin (length code.old.entries)) (Place d ∷ Flag flags ∷ Goto to.no ∷ Goto to.yes ∷ []) }
    ensures { OnOk result (Expands code.old code.new k specials.now (Place d ∷ Flag flags ∷ Goto to.no ∷ Goto to.yes ∷ []) (on_memory testf) (choice_visits Testf) false) }
{
    let (no, yes) = to.statements(k);
    code.begin_statement(k);
    code.append(&[
        op!(begin k),
        op!(number 1, d),
        op!(load F 2, 1),
        op!(number 3, i64::from(flags)),
        op!(And 2, 2, 3),
        op!(jump_if Ne 2, 3, Statement(no)),
        op!(jump Statement(yes)),
    ])?;
    Ok(())
}

/// `TESTFI D,F,L1,L2`: to L2 where [D.A].F has all bits of F, else to L1.
pub fn testfi(
    code: &mut Code,
    k: u32,
    specials: &Specials,
    d: i64,
    flags: u32,
    to: ByAnswer,
) -> Result<(), AllocError>
    requires statement { k < length code.old.entries }
    requires few { length code.old.entries ≤ MAX_STATEMENTS }
    requires room { length code.old.ops + 1500 < 2 ^ 32 }
    requires within { All (LocatesWithin (length code.old.entries)) (Place d ∷ Flag flags ∷ Goto to.no ∷ Goto to.yes ∷ []) }
    ensures { OnOk result (Expands code.old code.new k specials.now (Place d ∷ Flag flags ∷ Goto to.no ∷ Goto to.yes ∷ []) (on_memory testfi) (choice_visits Testfi) false) }
{
    let (no, yes) = to.statements(k);
    code.begin_statement(k);
    code.append(&[
        op!(begin k),
        op!(number 1, d),
        op!(load A 1, 1),
        op!(load F 2, 1),
        op!(number 3, i64::from(flags)),
        op!(And 2, 2, 3),
        op!(jump_if Ne 2, 3, Statement(no)),
        op!(jump Statement(yes)),
    ])?;
    Ok(())
}

/// `VCMPIC D1,N,D2,L1,L2,L3`: [D1.A + N].V with D2.V.
pub fn vcmpic(
    code: &mut Code,
    k: u32,
    specials: &Specials,
    d1: i64,
    n: i64,
    d2: i64,
    to: ByOrder,
) -> Result<(), AllocError>
    requires statement { k < length code.old.entries }
    requires few { length code.old.entries ≤ MAX_STATEMENTS }
    requires room { length code.old.ops + 1500 < 2 ^ 32 }
    requires within { All (LocatesWithin (length code.old.entries)) (Place d1 ∷ Number n ∷ Place d2 ∷ Goto to.greater ∷ Goto to.equal ∷ Goto to.less ∷ []) }
    ensures { OnOk result (Expands code.old code.new k specials.now (Place d1 ∷ Number n ∷ Place d2 ∷ Goto to.greater ∷ Goto to.equal ∷ Goto to.less ∷ []) (on_memory vcmpic) (choice_visits Vcmpic) false) }
{
    let (greater, equal, less) = to.statements(k);
    code.begin_statement(k);
    code.append(&[
        op!(begin k),
        op!(number 1, d1),
        op!(load A 1, 1),
        op!(number 2, n),
        op!(Add 1, 1, 2),
        op!(load V 2, 1),
        op!(number 1, d2),
        op!(load V 3, 1),
        op!(jump_if Lt 3, 2, Statement(greater)),
        op!(jump_if Lt 2, 3, Statement(less)),
        op!(jump Statement(equal)),
    ])?;
    Ok(())
}

/// `VEQL D1,D2,L1,L2`: D1.V with D2.V.
pub fn veql(
    code: &mut Code,
    k: u32,
    specials: &Specials,
    d1: i64,
    d2: i64,
    to: ByAnswer,
) -> Result<(), AllocError>
    requires statement { k < length code.old.entries }
    requires few { length code.old.entries ≤ MAX_STATEMENTS }
    requires room { length code.old.ops + 1500 < 2 ^ 32 }
    requires within { All (LocatesWithin (length code.old.entries)) (Place d1 ∷ Place d2 ∷ Goto to.no ∷ Goto to.yes ∷ []) }
    ensures { OnOk result (Expands code.old code.new k specials.now (Place d1 ∷ Place d2 ∷ Goto to.no ∷ Goto to.yes ∷ []) (on_memory veql) (choice_visits Veql) false) }
{
    let (no, yes) = to.statements(k);
    code.begin_statement(k);
    code.append(&[
        op!(begin k),
        op!(number 1, d1),
        op!(load V 2, 1),
        op!(number 1, d2),
        op!(load V 3, 1),
        op!(jump_if Ne 2, 3, Statement(no)),
        op!(jump Statement(yes)),
    ])?;
    Ok(())
}

/// `VEQLC D,N,L1,L2`: D.V with N.
pub fn veqlc(
    code: &mut Code,
    k: u32,
    specials: &Specials,
    d: i64,
    n: i64,
    to: ByAnswer,
) -> Result<(), AllocError>
    requires statement { k < length code.old.entries }
    requires few { length code.old.entries ≤ MAX_STATEMENTS }
    requires room { length code.old.ops + 1500 < 2 ^ 32 }
    requires within { All (LocatesWithin (length code.old.entries)) (Place d ∷ Number n ∷ Goto to.no ∷ Goto to.yes ∷ []) }
    ensures { OnOk result (Expands code.old code.new k specials.now (Place d ∷ Number n ∷ Goto to.no ∷ Goto to.yes ∷ []) (on_memory veqlc) (choice_visits Veqlc) false) }
{
    let (no, yes) = to.statements(k);
    code.begin_statement(k);
    code.append(&[
        op!(begin k),
        op!(number 1, d),
        op!(load V 2, 1),
        op!(number 3, n),
        op!(jump_if Ne 2, 3, Statement(no)),
        op!(jump Statement(yes)),
    ])?;
    Ok(())
}
