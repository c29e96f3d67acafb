// The macros on descriptors, one function each.
ghost use Rattle.std.specs.Prelude.{◌+◌, ◌<◌, ◌^◌, ◌∷◌, [], OnOk, false, length};
ghost use Rattle.descr_clauses.specs.DescriptorClauses.{adjust, decra, getac, getd, getdc, getsiz, incra, incrv, mova, movd, movdic, movv, putac, putd, putdc, putvc, resetf, rsetfi, setac, setav, setf, setfi, setsiz, setva, setvc};
ghost use Rattle.descr_clauses.specs.DescrTable.{descr_visits};
ghost use Rattle.sil_model.specs.Effects.{on_memory};
ghost use Rattle.sil_model.specs.declared.program.Arg.TheVariants.{Flag, Number, Place};
ghost use Rattle.sil_macros.specs.declared.names.Macro.TheVariants.{Adjust, Decra, Getac, Getd, Getdc, Getsiz, Incra, Incrv, Mova, Movd, Movdic, Movv, Putac, Putd, Putdc, Putvc, Resetf, Rsetfi, Setac, Setav, Setf, Setfi, Setsiz, Setva, Setvc};
ghost use Rattle.sil_micro.specs.Expands.{Expands};

use sil_micro::{Code, op};
use sil_model::Specials;
use std::alloc::AllocError;

/// `ADJUST D1,D2,D3`: D1.A := [D2.A].A + D3.A.
pub fn adjust(
    code: &mut Code,
    k: u32,
    specials: &Specials,
    d1: i64,
    d2: i64,
    d3: i64,
) -> Result<(), AllocError>
    requires statement { k < length code.old.entries }
    requires room { length code.old.ops + 1500 < 2 ^ 32 }
    ensures { OnOk result (Expands code.old code.new k specials.now (Place d1 ∷ Place d2 ∷ Place d3 ∷ []) (on_memory adjust) (descr_visits Adjust) false) }
{
    code.begin_statement(k);
    code.append(&[
        op!(begin k),
        op!(number 1, d2),
        op!(load A 2, 1),
        op!(load A 2, 2),
        op!(number 1, d3),
        op!(load A 3, 1),
        op!(Add 2, 2, 3),
        op!(number 1, d1),
        op!(store A 1, 2),
    ])?;
    Ok(())
}

/// `DECRA D,N`: D.A := D.A - N.
pub fn decra(code: &mut Code, k: u32, specials: &Specials, d: i64, n: i64) -> Result<(), AllocError>
    requires statement { k < length code.old.entries }
    requires room { length code.old.ops + 1500 < 2 ^ 32 }
    ensures { OnOk result (Expands code.old code.new k specials.now (Place d ∷ Number n ∷ []) (on_memory decra) (descr_visits Decra) false) }
{
    code.begin_statement(k);
    code.append(&[
        op!(begin k),
        op!(number 1, d),
        op!(load A 2, 1),
        op!(number 3, n),
        op!(Sub 2, 2, 3),
        op!(store A 1, 2),
    ])?;
    Ok(())
}

/// `GETAC D1,D2,N`: D1.A := [D2.A + N].A.
pub fn getac(
    code: &mut Code,
    k: u32,
    specials: &Specials,
    d1: i64,
    d2: i64,
    n: i64,
) -> Result<(), AllocError>
    requires statement { k < length code.old.entries }
    requires room { length code.old.ops + 1500 < 2 ^ 32 }
    ensures { OnOk result (Expands code.old code.new k specials.now (Place d1 ∷ Place d2 ∷ Number n ∷ []) (on_memory getac) (descr_visits Getac) false) }
{
    code.begin_statement(k);
    code.append(&[
        op!(begin k),
        op!(number 1, d2),
        op!(load A 2, 1),
        op!(number 3, n),
        op!(Add 2, 2, 3),
        op!(load A 2, 2),
        op!(number 1, d1),
        op!(store A 1, 2),
    ])?;
    Ok(())
}

/// `GETD D1,D2,D3`: D1 := [D2.A + D3.A].
pub fn getd(
    code: &mut Code,
    k: u32,
    specials: &Specials,
    d1: i64,
    d2: i64,
    d3: i64,
) -> Result<(), AllocError>
    requires statement { k < length code.old.entries }
    requires room { length code.old.ops + 1500 < 2 ^ 32 }
    ensures { OnOk result (Expands code.old code.new k specials.now (Place d1 ∷ Place d2 ∷ Place d3 ∷ []) (on_memory getd) (descr_visits Getd) false) }
{
    code.begin_statement(k);
    code.append(&[
        op!(begin k),
        op!(number 1, d2),
        op!(load A 2, 1),
        op!(number 1, d3),
        op!(load A 3, 1),
        op!(Add 1, 2, 3),
        op!(load A 2, 1),
        op!(load F 3, 1),
        op!(load V 4, 1),
        op!(number 1, d1),
        op!(store_cell 1, 2, 3, 4),
    ])?;
    Ok(())
}

/// `GETDC D1,D2,N`: D1 := [D2.A + N].
pub fn getdc(
    code: &mut Code,
    k: u32,
    specials: &Specials,
    d1: i64,
    d2: i64,
    n: i64,
) -> Result<(), AllocError>
    requires statement { k < length code.old.entries }
    requires room { length code.old.ops + 1500 < 2 ^ 32 }
    ensures { OnOk result (Expands code.old code.new k specials.now (Place d1 ∷ Place d2 ∷ Number n ∷ []) (on_memory getdc) (descr_visits Getdc) false) }
{
    code.begin_statement(k);
    code.append(&[
        op!(begin k),
        op!(number 1, d2),
        op!(load A 2, 1),
        op!(number 3, n),
        op!(Add 1, 2, 3),
        op!(load A 2, 1),
        op!(load F 3, 1),
        op!(load V 4, 1),
        op!(number 1, d1),
        op!(store_cell 1, 2, 3, 4),
    ])?;
    Ok(())
}

/// `GETSIZ D1,D2`: D1 := ([D2.A].V, 0, 0).
pub fn getsiz(
    code: &mut Code,
    k: u32,
    specials: &Specials,
    d1: i64,
    d2: i64,
) -> Result<(), AllocError>
    requires statement { k < length code.old.entries }
    requires room { length code.old.ops + 1500 < 2 ^ 32 }
    ensures { OnOk result (Expands code.old code.new k specials.now (Place d1 ∷ Place d2 ∷ []) (on_memory getsiz) (descr_visits Getsiz) false) }
{
    code.begin_statement(k);
    code.append(&[
        op!(begin k),
        op!(number 1, d2),
        op!(load A 2, 1),
        op!(load V 2, 2),
        op!(number 1, d1),
        op!(number 3, 0),
        op!(store_cell 1, 2, 3, 3),
    ])?;
    Ok(())
}

/// `INCRA D,N`: D.A := D.A + N.
pub fn incra(code: &mut Code, k: u32, specials: &Specials, d: i64, n: i64) -> Result<(), AllocError>
    requires statement { k < length code.old.entries }
    requires room { length code.old.ops + 1500 < 2 ^ 32 }
    ensures { OnOk result (Expands code.old code.new k specials.now (Place d ∷ Number n ∷ []) (on_memory incra) (descr_visits Incra) false) }
{
    code.begin_statement(k);
    code.append(&[
        op!(begin k),
        op!(number 1, d),
        op!(load A 2, 1),
        op!(number 3, n),
        op!(Add 2, 2, 3),
        op!(store A 1, 2),
    ])?;
    Ok(())
}

/// `INCRV D,N`: D.V := D.V + N.
pub fn incrv(code: &mut Code, k: u32, specials: &Specials, d: i64, n: i64) -> Result<(), AllocError>
    requires statement { k < length code.old.entries }
    requires room { length code.old.ops + 1500 < 2 ^ 32 }
    ensures { OnOk result (Expands code.old code.new k specials.now (Place d ∷ Number n ∷ []) (on_memory incrv) (descr_visits Incrv) false) }
{
    code.begin_statement(k);
    code.append(&[
        op!(begin k),
        op!(number 1, d),
        op!(load V 2, 1),
        op!(number 3, n),
        op!(Add 2, 2, 3),
        op!(store V 1, 2),
    ])?;
    Ok(())
}

/// `MOVA D1,D2`: D1.A := D2.A.
pub fn mova(
    code: &mut Code,
    k: u32,
    specials: &Specials,
    d1: i64,
    d2: i64,
) -> Result<(), AllocError>
    requires statement { k < length code.old.entries }
    requires room { length code.old.ops + 1500 < 2 ^ 32 }
    ensures { OnOk result (Expands code.old code.new k specials.now (Place d1 ∷ Place d2 ∷ []) (on_memory mova) (descr_visits Mova) false) }
{
    code.begin_statement(k);
    code.append(&[
        op!(begin k),
        op!(number 1, d2),
        op!(load A 2, 1),
        op!(number 1, d1),
        op!(store A 1, 2),
    ])?;
    Ok(())
}

/// `MOVD D1,D2`: D1 := D2.
pub fn movd(
    code: &mut Code,
    k: u32,
    specials: &Specials,
    d1: i64,
    d2: i64,
) -> Result<(), AllocError>
    requires statement { k < length code.old.entries }
    requires room { length code.old.ops + 1500 < 2 ^ 32 }
    ensures { OnOk result (Expands code.old code.new k specials.now (Place d1 ∷ Place d2 ∷ []) (on_memory movd) (descr_visits Movd) false) }
{
    code.begin_statement(k);
    code.append(&[
        op!(begin k),
        op!(number 1, d2),
        op!(load A 2, 1),
        op!(load F 3, 1),
        op!(load V 4, 1),
        op!(number 1, d1),
        op!(store_cell 1, 2, 3, 4),
    ])?;
    Ok(())
}

/// `MOVDIC D1,N1,D2,N2`: [D1.A + N1] := [D2.A + N2].
pub fn movdic(
    code: &mut Code,
    k: u32,
    specials: &Specials,
    d1: i64,
    n1: i64,
    d2: i64,
    n2: i64,
) -> Result<(), AllocError>
    requires statement { k < length code.old.entries }
    requires room { length code.old.ops + 1500 < 2 ^ 32 }
    ensures { OnOk result (Expands code.old code.new k specials.now (Place d1 ∷ Number n1 ∷ Place d2 ∷ Number n2 ∷ []) (on_memory movdic) (descr_visits Movdic) false) }
{
    code.begin_statement(k);
    code.append(&[
        op!(begin k),
        op!(number 1, d1),
        op!(load A 2, 1),
        op!(number 1, d2),
        op!(load A 3, 1),
        op!(number 4, n2),
        op!(Add 3, 3, 4),
        op!(load A 4, 3),
        op!(load F 5, 3),
        op!(load V 6, 3),
        op!(number 3, n1),
        op!(Add 2, 2, 3),
        op!(store_cell 2, 4, 5, 6),
    ])?;
    Ok(())
}

/// `MOVV D1,D2`: D1.V := D2.V.
pub fn movv(
    code: &mut Code,
    k: u32,
    specials: &Specials,
    d1: i64,
    d2: i64,
) -> Result<(), AllocError>
    requires statement { k < length code.old.entries }
    requires room { length code.old.ops + 1500 < 2 ^ 32 }
    ensures { OnOk result (Expands code.old code.new k specials.now (Place d1 ∷ Place d2 ∷ []) (on_memory movv) (descr_visits Movv) false) }
{
    code.begin_statement(k);
    code.append(&[
        op!(begin k),
        op!(number 1, d2),
        op!(load V 2, 1),
        op!(number 1, d1),
        op!(store V 1, 2),
    ])?;
    Ok(())
}

/// `PUTAC D1,N,D2`: [D1.A + N].A := D2.A.
pub fn putac(
    code: &mut Code,
    k: u32,
    specials: &Specials,
    d1: i64,
    n: i64,
    d2: i64,
) -> Result<(), AllocError>
    requires statement { k < length code.old.entries }
    requires room { length code.old.ops + 1500 < 2 ^ 32 }
    ensures { OnOk result (Expands code.old code.new k specials.now (Place d1 ∷ Number n ∷ Place d2 ∷ []) (on_memory putac) (descr_visits Putac) false) }
{
    code.begin_statement(k);
    code.append(&[
        op!(begin k),
        op!(number 1, d1),
        op!(load A 2, 1),
        op!(number 1, d2),
        op!(load A 3, 1),
        op!(number 1, n),
        op!(Add 2, 2, 1),
        op!(store A 2, 3),
    ])?;
    Ok(())
}

/// `PUTD D1,D2,D3`: [D1.A + D2.A] := D3.
pub fn putd(
    code: &mut Code,
    k: u32,
    specials: &Specials,
    d1: i64,
    d2: i64,
    d3: i64,
) -> Result<(), AllocError>
    requires statement { k < length code.old.entries }
    requires room { length code.old.ops + 1500 < 2 ^ 32 }
    ensures { OnOk result (Expands code.old code.new k specials.now (Place d1 ∷ Place d2 ∷ Place d3 ∷ []) (on_memory putd) (descr_visits Putd) false) }
{
    code.begin_statement(k);
    code.append(&[
        op!(begin k),
        op!(number 1, d1),
        op!(load A 2, 1),
        op!(number 1, d2),
        op!(load A 3, 1),
        op!(Add 2, 2, 3),
        op!(number 1, d3),
        op!(load A 3, 1),
        op!(load F 4, 1),
        op!(load V 5, 1),
        op!(store_cell 2, 3, 4, 5),
    ])?;
    Ok(())
}

/// `PUTDC D1,N,D2`: [D1.A + N] := D2.
pub fn putdc(
    code: &mut Code,
    k: u32,
    specials: &Specials,
    d1: i64,
    n: i64,
    d2: i64,
) -> Result<(), AllocError>
    requires statement { k < length code.old.entries }
    requires room { length code.old.ops + 1500 < 2 ^ 32 }
    ensures { OnOk result (Expands code.old code.new k specials.now (Place d1 ∷ Number n ∷ Place d2 ∷ []) (on_memory putdc) (descr_visits Putdc) false) }
{
    code.begin_statement(k);
    code.append(&[
        op!(begin k),
        op!(number 1, d1),
        op!(load A 2, 1),
        op!(number 3, n),
        op!(Add 2, 2, 3),
        op!(number 1, d2),
        op!(load A 3, 1),
        op!(load F 4, 1),
        op!(load V 5, 1),
        op!(store_cell 2, 3, 4, 5),
    ])?;
    Ok(())
}

/// `PUTVC D1,N,D2`: [D1.A + N].V := D2.V.
pub fn putvc(
    code: &mut Code,
    k: u32,
    specials: &Specials,
    d1: i64,
    n: i64,
    d2: i64,
) -> Result<(), AllocError>
    requires statement { k < length code.old.entries }
    requires room { length code.old.ops + 1500 < 2 ^ 32 }
    ensures { OnOk result (Expands code.old code.new k specials.now (Place d1 ∷ Number n ∷ Place d2 ∷ []) (on_memory putvc) (descr_visits Putvc) false) }
{
    code.begin_statement(k);
    code.append(&[
        op!(begin k),
        op!(number 1, d1),
        op!(load A 2, 1),
        op!(number 1, d2),
        op!(load V 3, 1),
        op!(number 1, n),
        op!(Add 2, 2, 1),
        op!(store V 2, 3),
    ])?;
    Ok(())
}

/// `RESETF D,F`: D.F := D.F without the bits of F.
pub fn resetf(
    code: &mut Code,
    k: u32,
    specials: &Specials,
    d: i64,
    flags: u32,
) -> Result<(), AllocError>
    requires statement { k < length code.old.entries }
    requires room { length code.old.ops + 1500 < 2 ^ 32 }
    ensures { OnOk result (Expands code.old code.new k specials.now (Place d ∷ Flag flags ∷ []) (on_memory resetf) (descr_visits Resetf) false) }
{
    code.begin_statement(k);
    code.append(&[
        op!(begin k),
        op!(number 1, d),
        op!(load F 2, 1),
        op!(number 3, i64::from(flags)),
        op!(And 3, 2, 3),
        op!(Sub 2, 2, 3),
        op!(store F 1, 2),
    ])?;
    Ok(())
}

/// `RSETFI D,F`: [D.A].F := itself without the bits of F.
pub fn rsetfi(
    code: &mut Code,
    k: u32,
    specials: &Specials,
    d: i64,
    flags: u32,
) -> Result<(), AllocError>
    requires statement { k < length code.old.entries }
    requires room { length code.old.ops + 1500 < 2 ^ 32 }
    ensures { OnOk result (Expands code.old code.new k specials.now (Place d ∷ Flag flags ∷ []) (on_memory rsetfi) (descr_visits Rsetfi) false) }
{
    code.begin_statement(k);
    code.append(&[
        op!(begin k),
        op!(number 1, d),
        op!(load A 1, 1),
        op!(load F 2, 1),
        op!(number 3, i64::from(flags)),
        op!(And 3, 2, 3),
        op!(Sub 2, 2, 3),
        op!(store F 1, 2),
    ])?;
    Ok(())
}

/// `SETAC D,N`: D.A := N.
pub fn setac(code: &mut Code, k: u32, specials: &Specials, d: i64, n: i64) -> Result<(), AllocError>
    requires statement { k < length code.old.entries }
    requires room { length code.old.ops + 1500 < 2 ^ 32 }
    ensures { OnOk result (Expands code.old code.new k specials.now (Place d ∷ Number n ∷ []) (on_memory setac) (descr_visits Setac) false) }
{
    code.begin_statement(k);
    code.append(&[
        op!(begin k),
        op!(number 1, d),
        op!(number 2, n),
        op!(store A 1, 2),
    ])?;
    Ok(())
}

/// `SETAV D1,D2`: D1 := (D2.V, 0, 0).
pub fn setav(
    code: &mut Code,
    k: u32,
    specials: &Specials,
    d1: i64,
    d2: i64,
) -> Result<(), AllocError>
    requires statement { k < length code.old.entries }
    requires room { length code.old.ops + 1500 < 2 ^ 32 }
    ensures { OnOk result (Expands code.old code.new k specials.now (Place d1 ∷ Place d2 ∷ []) (on_memory setav) (descr_visits Setav) false) }
{
    code.begin_statement(k);
    code.append(&[
        op!(begin k),
        op!(number 1, d2),
        op!(load V 2, 1),
        op!(number 1, d1),
        op!(number 3, 0),
        op!(store_cell 1, 2, 3, 3),
    ])?;
    Ok(())
}

/// `SETF D,F`: D.F := D.F with the bits of F.
pub fn setf(
    code: &mut Code,
    k: u32,
    specials: &Specials,
    d: i64,
    flags: u32,
) -> Result<(), AllocError>
    requires statement { k < length code.old.entries }
    requires room { length code.old.ops + 1500 < 2 ^ 32 }
    ensures { OnOk result (Expands code.old code.new k specials.now (Place d ∷ Flag flags ∷ []) (on_memory setf) (descr_visits Setf) false) }
{
    code.begin_statement(k);
    code.append(&[
        op!(begin k),
        op!(number 1, d),
        op!(load F 2, 1),
        op!(number 3, i64::from(flags)),
        op!(Or 2, 2, 3),
        op!(store F 1, 2),
    ])?;
    Ok(())
}

/// `SETFI D,F`: [D.A].F := itself with the bits of F.
pub fn setfi(
    code: &mut Code,
    k: u32,
    specials: &Specials,
    d: i64,
    flags: u32,
) -> Result<(), AllocError>
    requires statement { k < length code.old.entries }
    requires room { length code.old.ops + 1500 < 2 ^ 32 }
    ensures { OnOk result (Expands code.old code.new k specials.now (Place d ∷ Flag flags ∷ []) (on_memory setfi) (descr_visits Setfi) false) }
{
    code.begin_statement(k);
    code.append(&[
        op!(begin k),
        op!(number 1, d),
        op!(load A 1, 1),
        op!(load F 2, 1),
        op!(number 3, i64::from(flags)),
        op!(Or 2, 2, 3),
        op!(store F 1, 2),
    ])?;
    Ok(())
}

/// `SETSIZ D1,D2`: [D1.A].V := D2.A.
pub fn setsiz(
    code: &mut Code,
    k: u32,
    specials: &Specials,
    d1: i64,
    d2: i64,
) -> Result<(), AllocError>
    requires statement { k < length code.old.entries }
    requires room { length code.old.ops + 1500 < 2 ^ 32 }
    ensures { OnOk result (Expands code.old code.new k specials.now (Place d1 ∷ Place d2 ∷ []) (on_memory setsiz) (descr_visits Setsiz) false) }
{
    code.begin_statement(k);
    code.append(&[
        op!(begin k),
        op!(number 1, d1),
        op!(load A 2, 1),
        op!(number 1, d2),
        op!(load A 3, 1),
        op!(store V 2, 3),
    ])?;
    Ok(())
}

/// `SETVA D1,D2`: D1.V := D2.A.
pub fn setva(
    code: &mut Code,
    k: u32,
    specials: &Specials,
    d1: i64,
    d2: i64,
) -> Result<(), AllocError>
    requires statement { k < length code.old.entries }
    requires room { length code.old.ops + 1500 < 2 ^ 32 }
    ensures { OnOk result (Expands code.old code.new k specials.now (Place d1 ∷ Place d2 ∷ []) (on_memory setva) (descr_visits Setva) false) }
{
    code.begin_statement(k);
    code.append(&[
        op!(begin k),
        op!(number 1, d2),
        op!(load A 2, 1),
        op!(number 1, d1),
        op!(store V 1, 2),
    ])?;
    Ok(())
}

/// `SETVC D,N`: D.V := N.
pub fn setvc(code: &mut Code, k: u32, specials: &Specials, d: i64, n: i64) -> Result<(), AllocError>
    requires statement { k < length code.old.entries }
    requires room { length code.old.ops + 1500 < 2 ^ 32 }
    ensures { OnOk result (Expands code.old code.new k specials.now (Place d ∷ Number n ∷ []) (on_memory setvc) (descr_visits Setvc) false) }
{
    code.begin_statement(k);
    code.append(&[
        op!(begin k),
        op!(number 1, d),
        op!(number 2, n),
        op!(store V 1, 2),
    ])?;
    Ok(())
}
