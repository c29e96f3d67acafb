// The macros on lengths, one function each.
ghost use Rattle.std.specs.Prelude.{◌+◌, ◌<◌, ◌^◌, ◌∷◌, [], OnOk, false, length};
ghost use Rattle.sil_macros.specs.declared.names.Macro.TheVariants.{Addlg, Fshrtn, Getlg, Putlg, Setlc, Shortn};
ghost use Rattle.spec_clauses.specs.SpecTable.{spec_visits};
ghost use Rattle.spec_clauses.specs.SpecifierClauses.{addlg, fshrtn, getlg, putlg, setlc, shortn};
ghost use Rattle.sil_model.specs.Effects.{on_memory};
ghost use Rattle.sil_model.specs.declared.program.Arg.TheVariants.{Number, Place};
ghost use Rattle.sil_micro.specs.Expands.{Expands};

use sil_micro::{Code, op};
use sil_model::Specials;
use std::alloc::AllocError;

/// `ADDLG S,D`: S.L := S.L + D.A.
pub fn addlg(code: &mut Code, k: u32, specials: &Specials, s: i64, d: i64) -> Result<(), AllocError>
    requires statement { k < length code.old.entries }
    requires room { length code.old.ops + 1500 < 2 ^ 32 }
    ensures { OnOk result (Expands code.old code.new k specials.now (Place s ∷ Place d ∷ []) (on_memory addlg) (spec_visits Addlg) false) }
{
    code.begin_statement(k);
    code.append(&[
        op!(begin k),
        op!(number 1, s),
        op!(fixed 2, Descr),
        op!(Add 1, 1, 2),
        op!(load V 3, 1),
        op!(number 2, d),
        op!(load A 4, 2),
        op!(Add 3, 3, 4),
        op!(store V 1, 3),
    ])?;
    Ok(())
}

/// `FSHRTN S,N`: S.O := S.O + N, and S.L := S.L - N.
pub fn fshrtn(
    code: &mut Code,
    k: u32,
    specials: &Specials,
    s: i64,
    n: i64,
) -> Result<(), AllocError>
    requires statement { k < length code.old.entries }
    requires room { length code.old.ops + 1500 < 2 ^ 32 }
    ensures { OnOk result (Expands code.old code.new k specials.now (Place s ∷ Number n ∷ []) (on_memory fshrtn) (spec_visits Fshrtn) false) }
{
    code.begin_statement(k);
    code.append(&[
        op!(begin k),
        op!(number 1, s),
        op!(fixed 2, Descr),
        op!(Add 1, 1, 2),
        op!(load A 3, 1),
        op!(load V 4, 1),
        op!(number 5, n),
        op!(Add 3, 3, 5),
        op!(Sub 4, 4, 5),
        op!(store A 1, 3),
        op!(store V 1, 4),
    ])?;
    Ok(())
}

/// `GETLG D,S`: D := (S.L, 0, 0).
pub fn getlg(code: &mut Code, k: u32, specials: &Specials, d: i64, s: i64) -> Result<(), AllocError>
    requires statement { k < length code.old.entries }
    requires room { length code.old.ops + 1500 < 2 ^ 32 }
    ensures { OnOk result (Expands code.old code.new k specials.now (Place d ∷ Place s ∷ []) (on_memory getlg) (spec_visits Getlg) false) }
{
    code.begin_statement(k);
    code.append(&[
        op!(begin k),
        op!(number 1, s),
        op!(fixed 2, Descr),
        op!(Add 1, 1, 2),
        op!(load V 2, 1),
        op!(number 1, d),
        op!(number 3, 0),
        op!(store_cell 1, 2, 3, 3),
    ])?;
    Ok(())
}

/// `PUTLG S,D`: S.L := D.A.
pub fn putlg(code: &mut Code, k: u32, specials: &Specials, s: i64, d: i64) -> Result<(), AllocError>
    requires statement { k < length code.old.entries }
    requires room { length code.old.ops + 1500 < 2 ^ 32 }
    ensures { OnOk result (Expands code.old code.new k specials.now (Place s ∷ Place d ∷ []) (on_memory putlg) (spec_visits Putlg) false) }
{
    code.begin_statement(k);
    code.append(&[
        op!(begin k),
        op!(number 1, d),
        op!(load A 3, 1),
        op!(number 1, s),
        op!(fixed 2, Descr),
        op!(Add 1, 1, 2),
        op!(store V 1, 3),
    ])?;
    Ok(())
}

/// `SETLC S,N`: S.L := N.
pub fn setlc(code: &mut Code, k: u32, specials: &Specials, s: i64, n: i64) -> Result<(), AllocError>
    requires statement { k < length code.old.entries }
    requires room { length code.old.ops + 1500 < 2 ^ 32 }
    ensures { OnOk result (Expands code.old code.new k specials.now (Place s ∷ Number n ∷ []) (on_memory setlc) (spec_visits Setlc) false) }
{
    code.begin_statement(k);
    code.append(&[
        op!(begin k),
        op!(number 1, s),
        op!(fixed 2, Descr),
        op!(Add 1, 1, 2),
        op!(number 3, n),
        op!(store V 1, 3),
    ])?;
    Ok(())
}

/// `SHORTN S,N`: S.L := S.L - N.
pub fn shortn(
    code: &mut Code,
    k: u32,
    specials: &Specials,
    s: i64,
    n: i64,
) -> Result<(), AllocError>
    requires statement { k < length code.old.entries }
    requires room { length code.old.ops + 1500 < 2 ^ 32 }
    ensures { OnOk result (Expands code.old code.new k specials.now (Place s ∷ Number n ∷ []) (on_memory shortn) (spec_visits Shortn) false) }
{
    code.begin_statement(k);
    code.append(&[
        op!(begin k),
        op!(number 1, s),
        op!(fixed 2, Descr),
        op!(Add 1, 1, 2),
        op!(load V 3, 1),
        op!(number 4, n),
        op!(Sub 3, 3, 4),
        op!(store V 1, 3),
    ])?;
    Ok(())
}
