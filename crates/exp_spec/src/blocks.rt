// The macros on the sizes of blocks of storage, one function each. So many characters, one at least,
// take (their number - 1) / d + 1 cells.
ghost use Rattle.std.specs.Prelude.{◌+◌, ◌<◌, ◌^◌, ◌∷◌, [], OnOk, false, length};
ghost use Rattle.sil_macros.specs.declared.names.Macro.TheVariants.{Bksize, Getlth};
ghost use Rattle.spec_clauses.specs.SpecTable.{spec_visits};
ghost use Rattle.spec_clauses.specs.SpecifierClauses.{bksize, getlth};
ghost use Rattle.sil_model.specs.Effects.{on_memory, on_site};
ghost use Rattle.sil_model.specs.declared.program.Arg.TheVariants.{Place};
ghost use Rattle.sil_micro.specs.Expands.{Expands};

use crate::writes::append_size;
use sil_micro::{Code, op};
use sil_model::Specials;
use std::alloc::AllocError;

/// `BKSIZE D1,D2` with t = [D2.A]: D1 := (d * (4 + max(t.V, 1) / d rounded up), 0, 0) where t.F has
/// the flag of string titles, else (t.V + d, 0, 0).
pub fn bksize(
    code: &mut Code,
    k: u32,
    specials: &Specials,
    d1: i64,
    d2: i64,
) -> Result<(), AllocError>
    requires statement { k < length code.old.entries }
    requires room { length code.old.ops + 1500 < 2 ^ 32 }
    ensures { OnOk result (Expands code.old code.new k specials.now (Place d1 ∷ Place d2 ∷ []) (on_site bksize) (spec_visits Bksize) false) }
{
    code.begin_statement(k);
    code.append(&[
        op!(begin k),
        op!(number 1, d2),
        op!(load A 2, 1),
        op!(load F 3, 2),
        op!(load V 4, 2),
        op!(fixed 5, Sttl),
        op!(fixed 6, Descr),
        op!(And 7, 3, 5),
        op!(jump_if Eq 7, 5, Op(11)),
        op!(Add 4, 4, 6),
        op!(jump Op(19)),
        op!(number 8, 1),
        op!(jump_if Ge 4, 8, Op(14)),
        op!(copy 4, 8),
        op!(Sub 4, 4, 8),
        op!(Div 4, 4, 6),
        op!(number 8, 5),
        op!(Add 4, 4, 8),
        op!(Mul 4, 6, 4),
    ])?;
    append_size(code, d1)?;
    Ok(())
}

/// `GETLTH D1,D2`: D1 := (d * (3 + max(D2.A, 1) / d rounded up), 0, 0).
pub fn getlth(
    code: &mut Code,
    k: u32,
    specials: &Specials,
    d1: i64,
    d2: i64,
) -> Result<(), AllocError>
    requires statement { k < length code.old.entries }
    requires room { length code.old.ops + 1500 < 2 ^ 32 }
    ensures { OnOk result (Expands code.old code.new k specials.now (Place d1 ∷ Place d2 ∷ []) (on_memory getlth) (spec_visits Getlth) false) }
{
    code.begin_statement(k);
    code.append(&[
        op!(begin k),
        op!(number 1, d2),
        op!(load A 4, 1),
        op!(fixed 6, Descr),
        op!(number 8, 1),
        op!(jump_if Ge 4, 8, Op(7)),
        op!(copy 4, 8),
        op!(Sub 4, 4, 8),
        op!(Div 4, 4, 6),
        op!(number 8, 4),
        op!(Add 4, 4, 8),
        op!(Mul 4, 6, 4),
        op!(number 1, d1),
        op!(number 3, 0),
        op!(store_cell 1, 4, 3, 3),
    ])?;
    Ok(())
}
