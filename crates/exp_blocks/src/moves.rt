// The macro that moves a block. An address is that of a cell where it lies a whole number of cells
// above the first one; the kind of a cell says how it is moved. No block has more cells than there are.
ghost use Rattle.std.specs.Prelude.{◌+◌, ◌<◌, ◌^◌, ◌∷◌, [], OnOk, false, length};
ghost use Rattle.sil_macros.specs.declared.names.Macro.TheVariants.{Movblk};
ghost use Rattle.tree_clauses.specs.TreeTable.{tree_clause, tree_visits};
ghost use Rattle.sil_model.specs.declared.program.Arg.TheVariants.{Place};
ghost use Rattle.sil_micro.specs.Expands.{Expands};

use sil_micro::{Code, op};
use sil_model::Specials;
use std::alloc::AllocError;

/// `MOVBLK D1,D2,D3`: the cells of the block at D2, but for its title, go to the block at D1, lowest
/// first; D3.A is their bytes.
pub fn movblk(
    code: &mut Code,
    k: u32,
    specials: &Specials,
    d1: i64,
    d2: i64,
    d3: i64,
) -> Result<(), AllocError>
    requires statement { k < length code.old.entries }
    requires room { length code.old.ops + 1500 < 2 ^ 32 }
    ensures { OnOk result (Expands code.old code.new k specials.now (Place d1 ∷ Place d2 ∷ Place d3 ∷ []) (tree_clause Movblk) (tree_visits Movblk) false) }
{
    let _ = specials;
    code.begin_statement(k);
    code.append(&[
        op!(begin k),
        op!(number 4, 0),
        op!(number 5, 1),
        op!(number 14, 0x4000_0000),
        op!(number 1, d1),
        op!(load A 2, 1),
        op!(number 1, d2),
        op!(load A 3, 1),
        op!(number 1, d3),
        op!(load A 8, 1),
        op!(fixed 7, Descr),
        op!(copy 6, 7),
        op!(jump_if Ge 8, 4, Op(15)),
        op!(number 11, 3),
        op!(end 11),
        op!(Rem 11, 8, 7),
        op!(jump_if Ne 11, 4, Op(13)),
        op!(Div 8, 8, 7),
        op!(fixed 11, Cells),
        op!(jump_if Lt 11, 8, Op(13)),
        op!(jump_if Eq 8, 4, Op(51)),
        op!(Sub 8, 8, 5),
        op!(Add 9, 3, 6),
        op!(jump_if Lt 9, 14, Op(13)),
        op!(Sub 11, 9, 14),
        op!(Rem 12, 11, 7),
        op!(jump_if Ne 12, 4, Op(13)),
        op!(Div 11, 11, 7),
        op!(load_word Kind 13, 11),
        op!(Add 10, 2, 6),
        op!(jump_if Ne 13, 4, Op(37)),
        op!(load A 11, 9),
        op!(load F 12, 9),
        op!(load V 13, 9),
        op!(store_cell 10, 11, 12, 13),
        op!(Add 6, 6, 7),
        op!(jump Op(20)),
        op!(jump_if Lt 10, 14, Op(13)),
        op!(Sub 11, 10, 14),
        op!(Rem 12, 11, 7),
        op!(jump_if Ne 12, 4, Op(13)),
        op!(Div 11, 11, 7),
        op!(load_word Kind 13, 11),
        op!(number 11, 0),
        op!(Add 12, 9, 11),
        op!(load_char 13, 12),
        op!(Add 12, 10, 11),
        op!(store_char 12, 13),
        op!(Add 11, 11, 5),
        op!(jump_if Ne 11, 7, Op(44)),
        op!(jump Op(35)),
    ])?;
    Ok(())
}
