// The copy of a pattern, by parts.
ghost use Rattle.std.specs.Prelude.{◌≡◌, ◌+◌, ◌<◌, ◌^◌, ◌∷◌, [], OnOk, false, length};
ghost use Rattle.sil_macros.specs.declared.names.Macro.TheVariants.{Cpypat};
ghost use Rattle.tree_clauses.specs.TreeTable.{tree_clause, tree_visits};
ghost use Rattle.sil_model.specs.declared.program.Arg.TheVariants.{Place};
ghost use Rattle.sil_micro.specs.Codes.{appended};
ghost use Rattle.sil_micro.specs.Expands.{Expands};
ghost use Rattle.pattern_runtime.specs.PatternParts.{begin_code, copy_code, offsets_code};

use sil_micro::{Code, op};
use sil_model::Specials;
use std::alloc::AllocError;

/// Statement k begins; scratch words 0 to 2 := D3.A, D4.A and D5.A.
fn append_offsets(code: &mut Code, k: u32, d3: i64, d4: i64, d5: i64) -> Result<(), AllocError>
    requires room { length code.old.ops + 500 < 2 ^ 32 }
    ensures grown { OnOk result (code.new ≡ appended code.old (offsets_code k d3 d4 d5)) }
    ensures count { OnOk result (length code.new.ops ≡ length code.old.ops + 13) }
{
    code.append(&[
        op!(begin k),
        op!(number 4, 0),
        op!(number 5, 1),
        op!(number 7, 2),
        op!(number 1, d3),
        op!(load A 6, 1),
        op!(store_word Scratch 4, 6),
        op!(number 1, d4),
        op!(load A 6, 1),
        op!(store_word Scratch 5, 6),
        op!(number 1, d5),
        op!(load A 6, 1),
        op!(store_word Scratch 7, 6),
    ])?;
    Ok(())
}

/// Registers 2, 3 and 6 := D1.A, D2.A and D6.A.
fn append_begin(code: &mut Code, d1: i64, d2: i64, d6: i64) -> Result<(), AllocError>
    requires room { length code.old.ops + 500 < 2 ^ 32 }
    ensures grown { OnOk result (code.new ≡ appended code.old (begin_code d1 d2 d6)) }
    ensures count { OnOk result (length code.new.ops ≡ length code.old.ops + 6) }
{
    code.append(&[
        op!(number 1, d1),
        op!(load A 2, 1),
        op!(number 1, d2),
        op!(load A 3, 1),
        op!(number 1, d6),
        op!(load A 6, 1),
    ])?;
    Ok(())
}

/// Nodes are copied from register 3 to register 2 while register 6 is above 0; D1.A := register 2.
/// Register 0 counts the turns, at most one for each cell. A turn reads the cells of its node into
/// registers 7 to 15, 4 and 5, and then writes those of the copy.
fn append_copy(code: &mut Code, d1: i64) -> Result<(), AllocError>
    requires room { length code.old.ops + 500 < 2 ^ 32 }
    ensures grown { OnOk result (code.new ≡ appended code.old (copy_code d1)) }
    ensures count { OnOk result (length code.new.ops ≡ length code.old.ops + 66) }
{
    code.append(&[
        op!(fixed 0, Cells),
        op!(jump_if Ne 0, 4, Op(4)),
        op!(number 1, 3),
        op!(end 1),
        op!(Sub 0, 0, 5),
        op!(fixed 15, Descr),
        op!(Add 1, 3, 15),
        op!(load A 7, 1),
        op!(load F 8, 1),
        op!(load V 9, 1),
        op!(Add 1, 15, 15),
        op!(Add 1, 3, 1),
        op!(load A 10, 1),
        op!(load F 11, 1),
        op!(load V 12, 1),
        op!(Add 1, 15, 15),
        op!(Add 1, 1, 15),
        op!(Add 1, 3, 1),
        op!(load A 13, 1),
        op!(load V 14, 1),
        op!(jump_if Eq 10, 4, Op(23)),
        op!(load_word Scratch 1, 5),
        op!(Add 10, 10, 1),
        op!(jump_if Ne 12, 4, Op(27)),
        op!(number 1, 2),
        op!(load_word Scratch 12, 1),
        op!(jump Op(29)),
        op!(load_word Scratch 1, 5),
        op!(Add 12, 12, 1),
        op!(load_word Scratch 1, 4),
        op!(Add 13, 13, 1),
        op!(Add 14, 14, 1),
        op!(number 1, 3),
        op!(jump_if Ne 9, 1, Op(40)),
        op!(Add 1, 15, 15),
        op!(Add 1, 1, 1),
        op!(Add 1, 3, 1),
        op!(load F 4, 1),
        op!(load V 5, 1),
        op!(load A 15, 1),
        op!(fixed 1, Descr),
        op!(Add 1, 2, 1),
        op!(store_cell 1, 7, 8, 9),
        op!(fixed 7, Descr),
        op!(Add 8, 7, 7),
        op!(Add 1, 2, 8),
        op!(store_cell 1, 10, 11, 12),
        op!(Add 1, 8, 7),
        op!(Add 1, 2, 1),
        op!(number 10, 0),
        op!(store_cell 1, 13, 10, 14),
        op!(number 1, 3),
        op!(jump_if Ne 9, 1, Op(56)),
        op!(Add 1, 8, 8),
        op!(Add 1, 2, 1),
        op!(store_cell 1, 15, 4, 5),
        op!(number 4, 0),
        op!(number 5, 1),
        op!(Add 9, 5, 9),
        op!(Mul 9, 9, 7),
        op!(Add 2, 2, 9),
        op!(Add 3, 3, 9),
        op!(Sub 6, 6, 9),
        op!(jump_if Lt 4, 6, Op(1)),
        op!(number 1, d1),
        op!(store A 1, 2),
    ])?;
    Ok(())
}

/// `CPYPAT D1,D2,D3,D4,D5,D6`: the pattern at D2 of D6.A bytes is copied to D1, node by node.
pub fn cpypat(
    code: &mut Code,
    k: u32,
    specials: &Specials,
    d1: i64,
    d2: i64,
    d3: i64,
    d4: i64,
    d5: i64,
    d6: i64,
) -> Result<(), AllocError>
    requires statement { k < length code.old.entries }
    requires room { length code.old.ops + 1500 < 2 ^ 32 }
    ensures { OnOk result (Expands code.old code.new k specials.now (Place d1 ∷ Place d2 ∷ Place d3 ∷ Place d4 ∷ Place d5 ∷ Place d6 ∷ []) (tree_clause Cpypat) (tree_visits Cpypat) false) }
{
    let _ = specials;
    code.begin_statement(k);
    append_offsets(code, k, d3, d4, d5)?;
    append_begin(code, d1, d2, d6)?;
    append_copy(code, d1)?;
    Ok(())
}
