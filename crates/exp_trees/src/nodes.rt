// The macros on trees, one function each.
ghost use Rattle.std.specs.Prelude.{◌+◌, ◌<◌, ◌^◌, ◌∷◌, [], OnOk, false, length};
ghost use Rattle.sil_macros.specs.declared.names.Macro.TheVariants.{Addsib, Addson, Insert, Maknod};
ghost use Rattle.sil_model.specs.Effects.{on_memory};
ghost use Rattle.sil_model.specs.declared.program.Arg.TheVariants.{Absent, Place};
ghost use Rattle.sil_micro.specs.Expands.{Expands};
ghost use Rattle.tree_clauses.specs.TreeClauses.{addsib, addson, insert, maknod};
ghost use Rattle.tree_clauses.specs.TreeTable.{tree_visits};
ghost use Rattle.exp_trees.specs.NodeOperands.{place_or_null};

use crate::writes::{append_fourth, append_inserted, append_kept, append_linked, append_made};
use sil_micro::{Code, op};
use sil_model::Specials;
use std::alloc::AllocError;

/// `ADDSIB D1,D2`: the node at D2 becomes the right sibling of the node at D1.
pub(crate) fn addsib(
    code: &mut Code,
    k: u32,
    specials: &Specials,
    d1: i64,
    d2: i64,
) -> Result<(), AllocError>
    requires statement { k < length code.old.entries }
    requires room { length code.old.ops + 1500 < 2 ^ 32 }
    ensures { OnOk result (Expands code.old code.new k specials.now (Place d1 ∷ Place d2 ∷ []) (on_memory addsib) (tree_visits Addsib) false) }
{
    code.begin_statement(k);
    code.append(&[
        op!(begin k),
        op!(number 1, d1),
        op!(load A 12, 1),
        op!(fixed 14, Descr),
        op!(Add 15, 14, 14),
        op!(Add 13, 15, 15),
        op!(Add 15, 15, 14),
        op!(Add 1, 12, 14),
        op!(load A 2, 1),
        op!(load F 3, 1),
        op!(load V 4, 1),
        op!(number 1, d2),
        op!(load A 5, 1),
        op!(load F 6, 1),
        op!(load V 7, 1),
        op!(Add 12, 12, 15),
        op!(load A 8, 12),
        op!(load F 9, 12),
        op!(load V 10, 12),
        op!(Add 13, 2, 13),
        op!(load V 11, 13),
    ])?;
    append_linked(code)?;
    Ok(())
}

/// `ADDSON D1,D2`: the node at D2 becomes the left son of the node at D1.
pub(crate) fn addson(
    code: &mut Code,
    k: u32,
    specials: &Specials,
    d1: i64,
    d2: i64,
) -> Result<(), AllocError>
    requires statement { k < length code.old.entries }
    requires room { length code.old.ops + 1500 < 2 ^ 32 }
    ensures { OnOk result (Expands code.old code.new k specials.now (Place d1 ∷ Place d2 ∷ []) (on_memory addson) (tree_visits Addson) false) }
{
    code.begin_statement(k);
    code.append(&[
        op!(begin k),
        op!(number 1, d1),
        op!(load A 2, 1),
        op!(load F 3, 1),
        op!(load V 4, 1),
        op!(number 1, d2),
        op!(load A 5, 1),
        op!(load F 6, 1),
        op!(load V 7, 1),
        op!(fixed 14, Descr),
        op!(Add 12, 14, 14),
        op!(Add 15, 12, 14),
        op!(Add 13, 12, 12),
        op!(Add 12, 2, 12),
        op!(load A 8, 12),
        op!(load F 9, 12),
        op!(load V 10, 12),
        op!(Add 13, 2, 13),
        op!(load V 11, 13),
    ])?;
    append_linked(code)?;
    Ok(())
}

/// `INSERT D1,D2`: the node at D2 comes between the node at D1 and its father.
pub(crate) fn insert(
    code: &mut Code,
    k: u32,
    specials: &Specials,
    d1: i64,
    d2: i64,
) -> Result<(), AllocError>
    requires statement { k < length code.old.entries }
    requires room { length code.old.ops + 1500 < 2 ^ 32 }
    ensures { OnOk result (Expands code.old code.new k specials.now (Place d1 ∷ Place d2 ∷ []) (on_memory insert) (tree_visits Insert) false) }
{
    code.begin_statement(k);
    code.append(&[
        op!(begin k),
        op!(number 1, d1),
        op!(load A 2, 1),
        op!(load F 3, 1),
        op!(load V 4, 1),
        op!(fixed 14, Descr),
        op!(Add 1, 2, 14),
        op!(load A 5, 1),
        op!(load F 6, 1),
        op!(load V 7, 1),
        op!(number 1, d2),
        op!(load A 8, 1),
        op!(load F 9, 1),
        op!(load V 10, 1),
        op!(Add 15, 14, 14),
        op!(Add 1, 15, 14),
        op!(Add 1, 2, 1),
        op!(load A 11, 1),
        op!(load F 12, 1),
        op!(load V 13, 1),
    ])?;
    append_inserted(code)?;
    Ok(())
}

/// `MAKNOD D1,D2,D3,D4,D5,D6?`: the block at D2 becomes a node; D1 := D2.
pub(crate) fn maknod(
    code: &mut Code,
    k: u32,
    specials: &Specials,
    d1: i64,
    d2: i64,
    d3: i64,
    d4: i64,
    d5: i64,
    d6: Option<i64>,
) -> Result<(), AllocError>
    requires statement { k < length code.old.entries }
    requires room { length code.old.ops + 1500 < 2 ^ 32 }
    ensures { OnOk result (Expands code.old code.new k specials.now (Place d1 ∷ Place d2 ∷ Place d3 ∷ Place d4 ∷ Place d5 ∷ place_or_null d6 ∷ []) (on_memory maknod) (tree_visits Maknod) false) }
{
    match d6 {
        None => three_cells(code, k, specials, d1, d2, d3, d4, d5),
        Some(d6) => four_cells(code, k, specials, d1, d2, d3, d4, d5, d6),
    }
}

/// MAKNOD without its last operand.
fn three_cells(
    code: &mut Code,
    k: u32,
    specials: &Specials,
    d1: i64,
    d2: i64,
    d3: i64,
    d4: i64,
    d5: i64,
) -> Result<(), AllocError>
    requires statement { k < length code.old.entries }
    requires room { length code.old.ops + 1500 < 2 ^ 32 }
    ensures { OnOk result (Expands code.old code.new k specials.now (Place d1 ∷ Place d2 ∷ Place d3 ∷ Place d4 ∷ Place d5 ∷ Absent ∷ []) (on_memory maknod) (tree_visits Maknod) false) }
{
    code.begin_statement(k);
    code.append(&[
        op!(begin k),
        op!(number 1, d2),
        op!(load A 2, 1),
        op!(load F 3, 1),
        op!(load V 4, 1),
        op!(number 1, d5),
        op!(load A 5, 1),
        op!(load F 6, 1),
        op!(load V 7, 1),
        op!(number 1, d4),
        op!(load A 8, 1),
        op!(number 1, d3),
        op!(load A 9, 1),
    ])?;
    append_made(code)?;
    append_kept(code, d1)?;
    Ok(())
}

/// MAKNOD with its last operand.
fn four_cells(
    code: &mut Code,
    k: u32,
    specials: &Specials,
    d1: i64,
    d2: i64,
    d3: i64,
    d4: i64,
    d5: i64,
    d6: i64,
) -> Result<(), AllocError>
    requires statement { k < length code.old.entries }
    requires room { length code.old.ops + 1500 < 2 ^ 32 }
    ensures { OnOk result (Expands code.old code.new k specials.now (Place d1 ∷ Place d2 ∷ Place d3 ∷ Place d4 ∷ Place d5 ∷ Place d6 ∷ []) (on_memory maknod) (tree_visits Maknod) false) }
{
    code.begin_statement(k);
    code.append(&[
        op!(begin k),
        op!(number 1, d2),
        op!(load A 2, 1),
        op!(load F 3, 1),
        op!(load V 4, 1),
        op!(number 1, d5),
        op!(load A 5, 1),
        op!(load F 6, 1),
        op!(load V 7, 1),
        op!(number 1, d4),
        op!(load A 8, 1),
        op!(number 1, d3),
        op!(load A 9, 1),
        op!(number 1, d6),
        op!(load A 10, 1),
        op!(load F 11, 1),
        op!(load V 12, 1),
    ])?;
    append_made(code)?;
    append_fourth(code, d1)?;
    Ok(())
}
