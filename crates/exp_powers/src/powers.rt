// The macro that raises an integer to a power.
ghost use Rattle.std.specs.Prelude.{◌+◌, ◌<◌, ◌≤◌, ◌^◌, ◌∷◌, [], All, OnOk, false, length};
ghost use Rattle.sil_macros.specs.declared.names.Macro.TheVariants.{Expint};
ghost use Rattle.tree_clauses.specs.TreeTable.{tree_clause, tree_visits};
ghost use Rattle.sil_model.specs.declared.program.Arg.TheVariants.{Goto, Place};
ghost use Rattle.sil_micro.specs.Expands.{Expands};
ghost use Rattle.exp_common.specs.Locations.{LocatesWithin};

use exp_common::ByAnswer;
use sil_base::MAX_STATEMENTS;
use sil_micro::{Code, op};
use sil_model::Specials;
use std::alloc::AllocError;

/// `EXPINT D1,D2,D3,LF,LS`: D1 := D2.A to the power D3.A. The powers of 0, 1 and -1 go by
/// themselves; all others of 64 and more don't fit, so the product is taken at most 63 times.
pub fn expint(
    code: &mut Code,
    k: u32,
    specials: &Specials,
    d1: i64,
    d2: i64,
    d3: i64,
    to: ByAnswer,
) -> Result<(), AllocError>
    requires statement { k < length code.old.entries }
    requires few { length code.old.entries ≤ MAX_STATEMENTS }
    requires room { length code.old.ops + 1500 < 2 ^ 32 }
    requires within { All (LocatesWithin (length code.old.entries)) (Place d1 ∷ Place d2 ∷ Place d3 ∷ Goto to.no ∷ Goto to.yes ∷ []) }
    ensures { OnOk result (Expands code.old code.new k specials.now (Place d1 ∷ Place d2 ∷ Place d3 ∷ Goto to.no ∷ Goto to.yes ∷ []) (tree_clause Expint) (tree_visits Expint) false) }
{
    let _ = specials;
    let (failure, success) = to.statements(k);
    code.begin_statement(k);
    code.append(&[
        op!(begin k),
        op!(number 1, d2),
        op!(load A 2, 1),
        op!(load F 3, 1),
        op!(load V 4, 1),
        op!(number 1, d3),
        op!(load A 5, 1),
        op!(number 6, 1),
        op!(number 8, 0),
        op!(jump_if Lt 5, 8, Statement(failure)),
        op!(jump_if Eq 2, 8, Op(26)),
        op!(jump_if Eq 2, 6, Op(33)),
        op!(number 9, -1),
        op!(jump_if Eq 2, 9, Op(29)),
        op!(number 9, 64),
        op!(jump_if Ge 5, 9, Statement(failure)),
        op!(number 9, 1),
        op!(number 8, 0),
        op!(jump_if Eq 5, 8, Op(33)),
        op!(MulHigh 7, 6, 2),
        op!(Mul 6, 6, 2),
        op!(jump_if Ge 6, 8, Op(23)),
        op!(number 8, -1),
        op!(jump_if Ne 7, 8, Statement(failure)),
        op!(Sub 5, 5, 9),
        op!(jump Op(17)),
        op!(jump_if Eq 5, 8, Statement(failure)),
        op!(copy 6, 8),
        op!(jump Op(33)),
        op!(number 9, 2),
        op!(Rem 9, 5, 9),
        op!(jump_if Eq 9, 8, Op(33)),
        op!(copy 6, 2),
        op!(number 1, d1),
        op!(store_cell 1, 6, 3, 4),
        op!(jump Statement(success)),
    ])?;
    Ok(())
}
