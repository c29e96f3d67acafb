// The macros that search the pairs of a block, one function each.
ghost use Rattle.std.specs.Prelude.{◌≡◌, ◌+◌, ◌<◌, ◌≤◌, ◌^◌, ◌∷◌, [], All, OnOk, false, length};
ghost use Rattle.sil_macros.specs.declared.names.Macro.TheVariants.{Locapt, Locapv};
ghost use Rattle.tree_clauses.specs.TreeTable.{tree_clause, tree_visits};
ghost use Rattle.sil_model.specs.declared.program.Arg.TheVariants.{Goto, Place};
ghost use Rattle.sil_micro.specs.Codes.{appended};
ghost use Rattle.sil_micro.specs.Expands.{Expands};
ghost use Rattle.exp_common.specs.Locations.{LocatesWithin, lead};
ghost use Rattle.pattern_runtime.specs.PatternParts.{search_code};

use exp_common::ByAnswer;
use sil_base::MAX_STATEMENTS;
use sil_micro::{Code, op};
use sil_model::Specials;
use std::alloc::AllocError;

/// Statement k: D1 := the place of the first pair of the block at D2 whose cell is D3, by the first
/// cell of a pair or the second, with the F and V of D2. Register 7 counts the turns, one for each
/// cell and one more.
fn append_search(
    code: &mut Code,
    k: u32,
    cell: i64,
    d1: i64,
    d2: i64,
    d3: i64,
    to: ByAnswer,
) -> Result<(), AllocError>
    requires number { k < 2 ^ 31 }
    requires room { length code.old.ops + 500 < 2 ^ 32 }
    ensures { OnOk result (code.new ≡ appended code.old (search_code k cell d1 d2 d3 (lead k to.no) (lead k to.yes))) }
{
    let (failure, success) = to.statements(k);
    code.append(&[
        op!(begin k),
        op!(number 4, 0),
        op!(number 5, 1),
        op!(number 1, d2),
        op!(load A 2, 1),
        op!(load F 3, 1),
        op!(load V 15, 1),
        op!(load V 6, 2),
        op!(jump_if Eq 6, 4, Statement(failure)),
        op!(number 1, d3),
        op!(load A 8, 1),
        op!(load F 9, 1),
        op!(load V 10, 1),
        op!(fixed 13, Descr),
        op!(number 11, cell),
        op!(Mul 11, 11, 13),
        op!(Add 11, 2, 11),
        op!(Add 13, 13, 13),
        op!(number 12, 0),
        op!(fixed 7, Cells),
        op!(Add 7, 7, 5),
        op!(jump_if Ne 7, 4, Op(24)),
        op!(number 1, 3),
        op!(end 1),
        op!(Sub 7, 7, 5),
        op!(jump_if Ge 12, 6, Statement(failure)),
        op!(Add 1, 11, 12),
        op!(load A 14, 1),
        op!(jump_if Ne 14, 8, Op(37)),
        op!(load F 14, 1),
        op!(jump_if Ne 14, 9, Op(37)),
        op!(load V 14, 1),
        op!(jump_if Ne 14, 10, Op(37)),
        op!(Add 2, 2, 12),
        op!(number 1, d1),
        op!(store_cell 1, 2, 3, 15),
        op!(jump Statement(success)),
        op!(Add 12, 12, 13),
        op!(jump Op(21)),
    ])?;
    Ok(())
}

/// `LOCAPT D1,D2,D3,LF,LS`: the first pair of the block at D2 whose first cell is D3.
pub fn locapt(
    code: &mut Code,
    k: u32,
    specials: &Specials,
    d1: i64,
    d2: i64,
    d3: i64,
    to: ByAnswer,
) -> Result<(), AllocError>
    requires statement { k < length code.old.entries }
    requires few { length code.old.entries ≤ MAX_STATEMENTS }
    requires room { length code.old.ops + 1500 < 2 ^ 32 }
    requires within { All (LocatesWithin (length code.old.entries)) (Place d1 ∷ Place d2 ∷ Place d3 ∷ Goto to.no ∷ Goto to.yes ∷ []) }
    ensures { OnOk result (Expands code.old code.new k specials.now (Place d1 ∷ Place d2 ∷ Place d3 ∷ Goto to.no ∷ Goto to.yes ∷ []) (tree_clause Locapt) (tree_visits Locapt) false) }
{
    let _ = specials;
    code.begin_statement(k);
    append_search(code, k, 1, d1, d2, d3, to)?;
    Ok(())
}

/// `LOCAPV D1,D2,D3,LF,LS`: the first pair of the block at D2 whose second cell is D3.
pub fn locapv(
    code: &mut Code,
    k: u32,
    specials: &Specials,
    d1: i64,
    d2: i64,
    d3: i64,
    to: ByAnswer,
) -> Result<(), AllocError>
    requires statement { k < length code.old.entries }
    requires few { length code.old.entries ≤ MAX_STATEMENTS }
    requires room { length code.old.ops + 1500 < 2 ^ 32 }
    requires within { All (LocatesWithin (length code.old.entries)) (Place d1 ∷ Place d2 ∷ Place d3 ∷ Goto to.no ∷ Goto to.yes ∷ []) }
    ensures { OnOk result (Expands code.old code.new k specials.now (Place d1 ∷ Place d2 ∷ Place d3 ∷ Goto to.no ∷ Goto to.yes ∷ []) (tree_clause Locapv) (tree_visits Locapv) false) }
{
    let _ = specials;
    code.begin_statement(k);
    append_search(code, k, 2, d1, d2, d3, to)?;
    Ok(())
}
