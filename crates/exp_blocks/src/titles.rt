// The macro that searches a title. A block has no more cells than there are, so a search that goes
// on is undefined; register 8 counts its turns.
ghost use Rattle.std.specs.Prelude.{◌+◌, ◌<◌, ◌^◌, ◌∷◌, [], OnOk, false, length};
ghost use Rattle.sil_macros.specs.declared.names.Macro.TheVariants.{Top};
ghost use Rattle.tree_clauses.specs.TreeTable.{tree_clause, tree_visits};
ghost use Rattle.sil_model.specs.declared.program.Arg.TheVariants.{Place};
ghost use Rattle.sil_micro.specs.Expands.{Expands};

use sil_micro::{Code, op};
use sil_model::Specials;
use std::alloc::AllocError;

/// `TOP D1,D2,D3`: D1 := D3 with the address of the title at or below it; D2.A := how far below.
pub fn top(
    code: &mut Code,
    k: u32,
    specials: &Specials,
    d1: i64,
    d2: i64,
    d3: i64,
) -> Result<(), AllocError>
    requires statement { k < length code.old.entries }
    requires room { length code.old.ops + 1500 < 2 ^ 32 }
    ensures { OnOk result (Expands code.old code.new k specials.now (Place d1 ∷ Place d2 ∷ Place d3 ∷ []) (tree_clause Top) (tree_visits Top) false) }
{
    let _ = specials;
    code.begin_statement(k);
    code.append(&[
        op!(begin k),
        op!(number 4, 0),
        op!(number 5, 1),
        op!(number 1, d3),
        op!(load A 2, 1),
        op!(load F 3, 1),
        op!(load V 15, 1),
        op!(fixed 7, Ttl),
        op!(fixed 11, Descr),
        op!(number 6, 0),
        op!(fixed 8, Cells),
        op!(jump_if Ne 8, 4, Op(14)),
        op!(number 9, 3),
        op!(end 9),
        op!(Sub 8, 8, 5),
        op!(Sub 9, 2, 6),
        op!(load F 10, 9),
        op!(And 10, 10, 7),
        op!(jump_if Eq 10, 7, Op(21)),
        op!(Add 6, 6, 11),
        op!(jump Op(11)),
        op!(number 1, d1),
        op!(store_cell 1, 9, 3, 15),
        op!(number 1, d2),
        op!(store A 1, 6),
    ])?;
    Ok(())
}
