// The macros on whole specifiers, one function each.
ghost use Rattle.std.specs.Prelude.{◌+◌, ◌<◌, ◌≤◌, ◌^◌, ◌∷◌, [], All, OnOk, false, length};
ghost use Rattle.sil_macros.specs.declared.names.Macro.TheVariants.{Getspc, Locsp, Putspc, Remsp, Setsp, Subsp};
ghost use Rattle.spec_clauses.specs.SpecTable.{spec_visits};
ghost use Rattle.spec_clauses.specs.SpecifierClauses.{getspc, locsp, putspc, remsp, setsp, subsp};
ghost use Rattle.sil_model.specs.Effects.{on_memory};
ghost use Rattle.sil_model.specs.declared.program.Arg.TheVariants.{Goto, Number, Place};
ghost use Rattle.sil_micro.specs.Expands.{Expands};
ghost use Rattle.exp_common.specs.Locations.{LocatesWithin};

use crate::writes::{append_write, append_write_to};
use exp_common::ByAnswer;
use sil_base::MAX_STATEMENTS;
use sil_micro::{Code, op};
use sil_model::Specials;
use std::alloc::AllocError;

/// `GETSPC S,D,N`: S := the specifier at D.A + N.
pub fn getspc(
    code: &mut Code,
    k: u32,
    specials: &Specials,
    s: i64,
    d: i64,
    n: i64,
) -> Result<(), AllocError>
    requires statement { k < length code.old.entries }
    requires room { length code.old.ops + 1500 < 2 ^ 32 }
    ensures { OnOk result (Expands code.old code.new k specials.now (Place s ∷ Place d ∷ Number n ∷ []) (on_memory getspc) (spec_visits Getspc) false) }
{
    code.begin_statement(k);
    code.append(&[
        op!(begin k),
        op!(number 1, d),
        op!(load A 1, 1),
        op!(number 2, n),
        op!(Add 1, 1, 2),
        op!(load A 2, 1),
        op!(load F 3, 1),
        op!(load V 4, 1),
        op!(fixed 7, Descr),
        op!(Add 1, 1, 7),
        op!(load A 5, 1),
        op!(load V 6, 1),
        op!(number 1, s),
    ])?;
    append_write(code)?;
    Ok(())
}

/// `LOCSP S,D`: where D.A is 0, S.L := 0; else S := (D.A, D.F, D.V, 4 cells, [D.A].V).
pub fn locsp(code: &mut Code, k: u32, specials: &Specials, s: i64, d: i64) -> Result<(), AllocError>
    requires statement { k < length code.old.entries }
    requires few { length code.old.entries ≤ MAX_STATEMENTS }
    requires room { length code.old.ops + 1500 < 2 ^ 32 }
    ensures { OnOk result (Expands code.old code.new k specials.now (Place s ∷ Place d ∷ []) (on_memory locsp) (spec_visits Locsp) false) }
{
    code.begin_statement(k);
    code.append(&[
        op!(begin k),
        op!(number 1, d),
        op!(load A 2, 1),
        op!(load F 3, 1),
        op!(load V 4, 1),
        op!(fixed 7, Descr),
        op!(number 1, s),
        op!(number 8, 0),
        op!(jump_if Ne 2, 8, Op(12)),
        op!(Add 1, 1, 7),
        op!(store V 1, 8),
        op!(jump Statement(k + 1)),
        op!(load V 6, 2),
        op!(Add 5, 7, 7),
        op!(Add 5, 5, 5),
    ])?;
    append_write(code)?;
    Ok(())
}

/// `PUTSPC D,N,S`: the specifier at D.A + N := S.
pub fn putspc(
    code: &mut Code,
    k: u32,
    specials: &Specials,
    d: i64,
    n: i64,
    s: i64,
) -> Result<(), AllocError>
    requires statement { k < length code.old.entries }
    requires room { length code.old.ops + 1500 < 2 ^ 32 }
    ensures { OnOk result (Expands code.old code.new k specials.now (Place d ∷ Number n ∷ Place s ∷ []) (on_memory putspc) (spec_visits Putspc) false) }
{
    code.begin_statement(k);
    code.append(&[
        op!(begin k),
        op!(number 1, d),
        op!(load A 8, 1),
        op!(number 9, n),
        op!(Add 8, 8, 9),
        op!(number 1, s),
        op!(load A 2, 1),
        op!(load F 3, 1),
        op!(load V 4, 1),
        op!(fixed 7, Descr),
        op!(Add 1, 1, 7),
        op!(load A 5, 1),
        op!(load V 6, 1),
        op!(copy 1, 8),
    ])?;
    append_write(code)?;
    Ok(())
}

/// `REMSP S1,S2,S3`: S1 := (S2.A, S2.F, S2.V, S2.O + S3.L, S2.L - S3.L).
pub fn remsp(
    code: &mut Code,
    k: u32,
    specials: &Specials,
    s1: i64,
    s2: i64,
    s3: i64,
) -> Result<(), AllocError>
    requires statement { k < length code.old.entries }
    requires room { length code.old.ops + 1500 < 2 ^ 32 }
    ensures { OnOk result (Expands code.old code.new k specials.now (Place s1 ∷ Place s2 ∷ Place s3 ∷ []) (on_memory remsp) (spec_visits Remsp) false) }
{
    code.begin_statement(k);
    code.append(&[
        op!(begin k),
        op!(number 1, s2),
        op!(load A 2, 1),
        op!(load F 3, 1),
        op!(load V 4, 1),
        op!(fixed 7, Descr),
        op!(Add 1, 1, 7),
        op!(load A 5, 1),
        op!(load V 6, 1),
        op!(number 1, s3),
        op!(Add 1, 1, 7),
        op!(load V 8, 1),
        op!(Add 5, 5, 8),
        op!(Sub 6, 6, 8),
        op!(number 1, s1),
    ])?;
    append_write(code)?;
    Ok(())
}

/// `SETSP S1,S2`: S1 := S2.
pub fn setsp(
    code: &mut Code,
    k: u32,
    specials: &Specials,
    s1: i64,
    s2: i64,
) -> Result<(), AllocError>
    requires statement { k < length code.old.entries }
    requires room { length code.old.ops + 1500 < 2 ^ 32 }
    ensures { OnOk result (Expands code.old code.new k specials.now (Place s1 ∷ Place s2 ∷ []) (on_memory setsp) (spec_visits Setsp) false) }
{
    code.begin_statement(k);
    code.append(&[
        op!(begin k),
        op!(number 1, s2),
        op!(load A 2, 1),
        op!(load F 3, 1),
        op!(load V 4, 1),
        op!(fixed 7, Descr),
        op!(Add 1, 1, 7),
        op!(load A 5, 1),
        op!(load V 6, 1),
        op!(number 1, s1),
    ])?;
    append_write(code)?;
    Ok(())
}

/// `SUBSP S1,S2,S3,LF,LS`: LF where S3.L is below S2.L; else
/// S1 := (S3.A, S3.F, S3.V, S3.O, S2.L), to LS.
pub fn subsp(
    code: &mut Code,
    k: u32,
    specials: &Specials,
    s1: i64,
    s2: i64,
    s3: i64,
    to: ByAnswer,
) -> Result<(), AllocError>
    requires statement { k < length code.old.entries }
    requires few { length code.old.entries ≤ MAX_STATEMENTS }
    requires within { All (LocatesWithin (length code.old.entries)) (Place s1 ∷ Place s2 ∷ Place s3 ∷ Goto to.no ∷ Goto to.yes ∷ []) }
    requires room { length code.old.ops + 1500 < 2 ^ 32 }
    ensures { OnOk result (Expands code.old code.new k specials.now (Place s1 ∷ Place s2 ∷ Place s3 ∷ Goto to.no ∷ Goto to.yes ∷ []) (on_memory subsp) (spec_visits Subsp) false) }
{
    let (failure, success) = to.statements(k);
    code.begin_statement(k);
    code.append(&[
        op!(begin k),
        op!(fixed 7, Descr),
        op!(number 1, s2),
        op!(Add 1, 1, 7),
        op!(load V 6, 1),
        op!(number 1, s3),
        op!(Add 9, 1, 7),
        op!(load V 8, 9),
        op!(jump_if Lt 8, 6, Statement(failure)),
        op!(load A 2, 1),
        op!(load F 3, 1),
        op!(load V 4, 1),
        op!(load A 5, 9),
        op!(number 1, s1),
    ])?;
    append_write_to(code, success)?;
    Ok(())
}
