// The macros that follow the alternatives of a pattern, one function each. Of more alternatives than
// there are cells some come twice, so a walk that goes on is undefined; register 8 counts its turns.
ghost use Rattle.std.specs.Prelude.{◌+◌, ◌<◌, ◌^◌, ◌∷◌, [], OnOk, false, length};
ghost use Rattle.sil_macros.specs.declared.names.Macro.TheVariants.{Linkor, Lvalue};
ghost use Rattle.tree_clauses.specs.TreeTable.{tree_clause, tree_visits};
ghost use Rattle.sil_model.specs.declared.program.Arg.TheVariants.{Place};
ghost use Rattle.sil_micro.specs.Expands.{Expands};

use sil_micro::{Code, op};
use sil_model::Specials;
use std::alloc::AllocError;

/// `LINKOR D1,D2`: the last alternative of the pattern at D1 gets D2.A as its offset.
pub fn linkor(
    code: &mut Code,
    k: u32,
    specials: &Specials,
    d1: i64,
    d2: i64,
) -> Result<(), AllocError>
    requires statement { k < length code.old.entries }
    requires room { length code.old.ops + 1500 < 2 ^ 32 }
    ensures { OnOk result (Expands code.old code.new k specials.now (Place d1 ∷ Place d2 ∷ []) (tree_clause Linkor) (tree_visits Linkor) false) }
{
    let _ = specials;
    code.begin_statement(k);
    code.append(&[
        op!(begin k),
        op!(number 4, 0),
        op!(number 5, 1),
        op!(number 1, d1),
        op!(load A 2, 1),
        op!(number 1, d2),
        op!(load A 3, 1),
        op!(fixed 7, Descr),
        op!(Add 7, 7, 7),
        op!(Add 2, 2, 7),
        op!(number 6, 0),
        op!(fixed 8, Cells),
        op!(jump_if Ne 8, 4, Op(15)),
        op!(number 9, 3),
        op!(end 9),
        op!(Sub 8, 8, 5),
        op!(Add 9, 2, 6),
        op!(load A 6, 9),
        op!(jump_if Ne 6, 4, Op(12)),
        op!(store A 9, 3),
    ])?;
    Ok(())
}

/// `LVALUE D1,D2`: D1 := (the least A field of the third cells of all alternatives, 0, 0).
pub fn lvalue(
    code: &mut Code,
    k: u32,
    specials: &Specials,
    d1: i64,
    d2: i64,
) -> Result<(), AllocError>
    requires statement { k < length code.old.entries }
    requires room { length code.old.ops + 1500 < 2 ^ 32 }
    ensures { OnOk result (Expands code.old code.new k specials.now (Place d1 ∷ Place d2 ∷ []) (tree_clause Lvalue) (tree_visits Lvalue) false) }
{
    let _ = specials;
    code.begin_statement(k);
    code.append(&[
        op!(begin k),
        op!(number 4, 0),
        op!(number 5, 1),
        op!(number 1, d2),
        op!(load A 2, 1),
        op!(fixed 3, Descr),
        op!(Add 7, 3, 3),
        op!(Add 3, 7, 3),
        op!(Add 3, 2, 3),
        op!(Add 2, 2, 7),
        op!(number 6, 0),
        op!(number 7, i64::MAX),
        op!(fixed 8, Cells),
        op!(jump_if Ne 8, 4, Op(16)),
        op!(number 9, 3),
        op!(end 9),
        op!(Sub 8, 8, 5),
        op!(Add 9, 3, 6),
        op!(load A 10, 9),
        op!(Add 9, 2, 6),
        op!(load A 6, 9),
        op!(jump_if Ge 10, 7, Op(23)),
        op!(copy 7, 10),
        op!(jump_if Ne 6, 4, Op(13)),
        op!(number 1, d1),
        op!(store_cell 1, 7, 4, 4),
    ])?;
    Ok(())
}
