// The macros on trees, one function each.
ghost use Rattle.std.specs.Prelude.{◌≡◌, ◌<◌, ◌^◌, ◌*◌, ◌≤◌, IfNone, IfSome, pos};
ghost use Rattle.layout_params.specs.declared.cell.Cell.TheVariants as cell;
ghost use Rattle.sil_model.specs.Access.{written};
ghost use Rattle.sil_model.specs.Effects.{after_flow};
ghost use Rattle.sil_model.specs.Integers.{◌⊞◌};
ghost use Rattle.sil_model.specs.Memory.{FitsCell, FitsDescr, SameShape};
ghost use Rattle.tree_clauses.specs.TreeClauses.{addsib, addson, father, insert, inserted, left_son, maknod, maybe_descr_at, node_code, right_sibling, set_maybe_descr_at, three_written, two_written};

use layout_params::Descr;
use sil_model::{
    Arg, Cells, Flow, a_field, integer, maybe_place, place, set_v_field, v_field, wrapped_sum,
};

/// The address of the cell of a node that has its father.
pub(crate) fn father(cells: &Cells, node: i64) -> i64
    ensures { result ≡ father cells.now node }
{
    wrapped_sum(node, integer(cells.cell_size()))
}

/// The address of the cell of a node that has its left son.
pub(crate) fn left_son(cells: &Cells, node: i64) -> i64
    ensures { result ≡ left_son cells.now node }
{
    wrapped_sum(node, integer(2 * cells.cell_size()))
}

/// The address of the cell of a node that has its right sibling.
pub(crate) fn right_sibling(cells: &Cells, node: i64) -> i64
    ensures { result ≡ right_sibling cells.now node }
{
    wrapped_sum(node, integer(3 * cells.cell_size()))
}

/// The address of the cell of a node that has its code.
pub(crate) fn node_code(cells: &Cells, node: i64) -> i64
    ensures { result ≡ node_code cells.now node }
{
    wrapped_sum(node, integer(4 * cells.cell_size()))
}

/// `ADDSIB D1,D2`: the node at D2 becomes the right sibling of the node at D1.
#[tactic(auto, unfolding(crate::specs::TreeClauses::addsib))]
pub fn addsib(args: &[Arg], cells: &mut Cells) -> Option<Flow>
    ensures { addsib args.now cells.old ≡ after_flow result cells.new }
{
    let d1 = place(args, 0)?;
    let d2 = place(args, 1)?;
    let a = a_field(cells, d1)?;
    let f = cells.descr(father(cells, a))?;
    let b = cells.descr(d2)?;
    let sibling = cells.descr(right_sibling(cells, a))?;
    let code = node_code(cells, f.a);
    let sons = v_field(cells, code)?;
    let next = right_sibling(cells, a);
    cells.set_descr(right_sibling(cells, b.a), sibling)?;
    cells.set_descr(father(cells, b.a), f)?;
    cells.set_descr(next, b)?;
    set_v_field(cells, code, i128::from(sons) + 1)?;
    Some(Flow::Next)
}

/// `ADDSON D1,D2`: the node at D2 becomes the left son of the node at D1.
#[tactic(auto, unfolding(crate::specs::TreeClauses::addson))]
pub fn addson(args: &[Arg], cells: &mut Cells) -> Option<Flow>
    ensures { addson args.now cells.old ≡ after_flow result cells.new }
{
    let d1 = place(args, 0)?;
    let d2 = place(args, 1)?;
    let a = cells.descr(d1)?;
    let b = cells.descr(d2)?;
    let son = cells.descr(left_son(cells, a.a))?;
    let sons = v_field(cells, node_code(cells, a.a))?;
    cells.set_descr(right_sibling(cells, b.a), son)?;
    cells.set_descr(father(cells, b.a), a)?;
    cells.set_descr(left_son(cells, a.a), b)?;
    set_v_field(cells, node_code(cells, a.a), i128::from(sons) + 1)?;
    Some(Flow::Next)
}

/// Writes three descriptors, in order.
#[tactic(auto, unfolding(crate::specs::TreeClauses::three_written))]
fn write_three(
    cells: &mut Cells,
    first: (i64, Descr),
    second: (i64, Descr),
    third: (i64, Descr),
) -> Option<()>
    requires first { FitsDescr cells.old.limits first.1 }
    requires second { FitsDescr cells.old.limits second.1 }
    requires third { FitsDescr cells.old.limits third.1 }
    ensures writes { three_written cells.old first second third ≡ written result cells.new }
    ensures keeps { SameShape cells.old cells.new }
{
    cells.set_descr(first.0, first.1)?;
    cells.set_descr(second.0, second.1)?;
    cells.set_descr(third.0, third.1)
}

/// Writes two descriptors, in order.
#[tactic(auto, unfolding(crate::specs::TreeClauses::two_written))]
fn write_two(cells: &mut Cells, first: (i64, Descr), second: (i64, Descr)) -> Option<()>
    requires first { FitsDescr cells.old.limits first.1 }
    requires second { FitsDescr cells.old.limits second.1 }
    ensures writes { two_written cells.old first second ≡ written result cells.new }
    ensures keeps { SameShape cells.old cells.new }
{
    cells.set_descr(first.0, first.1)?;
    cells.set_descr(second.0, second.1)
}

/// Puts the node of b between that of a and that of its father f.
#[tactic(auto, unfolding(crate::specs::TreeClauses::inserted))]
fn write_inserted(
    cells: &mut Cells,
    a: &Descr,
    b: &Descr,
    f: &Descr,
    sibling: &Descr,
    sons: u64,
) -> Option<()>
    requires a { FitsDescr cells.old.limits a.now }
    requires b { FitsDescr cells.old.limits b.now }
    requires f { FitsDescr cells.old.limits f.now }
    requires sibling { FitsDescr cells.old.limits sibling.now }
    ensures { inserted cells.old a.now b.now f.now sibling.now sons ≡ written result cells.new }
{
    let up = (father(cells, b.a), *f);
    let next = (right_sibling(cells, b.a), *sibling);
    let son = (left_son(cells, b.a), *a);
    let below = (father(cells, a.a), *b);
    let grandson = (left_son(cells, f.a), *b);
    let code = node_code(cells, b.a);
    write_three(cells, up, next, son)?;
    write_two(cells, below, grandson)?;
    set_v_field(cells, code, i128::from(sons) + 1)
}

/// `INSERT D1,D2`: the node at D2 comes between the node at D1 and its father.
#[tactic(auto, unfolding(crate::specs::TreeClauses::insert))]
pub fn insert(args: &[Arg], cells: &mut Cells) -> Option<Flow>
    ensures { insert args.now cells.old ≡ after_flow result cells.new }
{
    let d1 = place(args, 0)?;
    let d2 = place(args, 1)?;
    let a = cells.descr(d1)?;
    let f = cells.descr(father(cells, a.a))?;
    let b = cells.descr(d2)?;
    let sibling = cells.descr(right_sibling(cells, a.a))?;
    let sons = v_field(cells, node_code(cells, b.a))?;
    write_inserted(cells, &a, &b, &f, &sibling, sons)?;
    Some(Flow::Next)
}

/// The descriptor at a place that may be null.
#[tactic(auto, unfolding(crate::specs::TreeClauses::maybe_descr_at))]
pub(crate) fn maybe_descr(cells: &Cells, at: Option<i64>) -> Option<Option<Descr>>
    ensures reads { result ≡ maybe_descr_at cells.now at }
    ensures fits { IfSome result (λ o. IfSome o (FitsDescr cells.now.limits)) }
{
    match at {
        None => Some(None),
        Some(at) => {
            let value = cells.descr(at)?;
            Some(Some(value))
        }
    }
}

/// Writes the descriptor, where there is one.
#[tactic(auto, unfolding(crate::specs::TreeClauses::set_maybe_descr_at))]
pub(crate) fn set_maybe_descr(cells: &mut Cells, at: i64, value: Option<Descr>) -> Option<()>
    requires { IfSome value (FitsDescr cells.old.limits) }
    ensures writes { set_maybe_descr_at cells.old at value ≡ written result cells.new }
    ensures keeps { SameShape cells.old cells.new }
{
    match value {
        None => Some(()),
        Some(value) => cells.set_descr(at, value),
    }
}

/// `MAKNOD D1,D2,D3,D4,D5,D6?`: the block at D2 becomes a node; D1 := D2.
#[tactic(auto, unfolding(crate::specs::TreeClauses::maknod))]
pub fn maknod(args: &[Arg], cells: &mut Cells) -> Option<Flow>
    ensures { maknod args.now cells.old ≡ after_flow result cells.new }
{
    let d1 = place(args, 0)?;
    let d2 = place(args, 1)?;
    let d3 = place(args, 2)?;
    let d4 = place(args, 3)?;
    let d5 = place(args, 4)?;
    let d6 = maybe_place(args, 5)?;
    let node = cells.descr(d2)?;
    let first = cells.descr(d5)?;
    let second = a_field(cells, d4)?;
    let third = a_field(cells, d3)?;
    let fourth = maybe_descr(cells, d6)?;
    let second = Descr {
        a: second,
        f: 0,
        v: 0,
    };
    let third = Descr {
        a: third,
        f: 0,
        v: 0,
    };
    let first = (father(cells, node.a), first);
    let second = (left_son(cells, node.a), second);
    let third = (right_sibling(cells, node.a), third);
    write_three(cells, first, second, third)?;
    set_maybe_descr(cells, node_code(cells, node.a), fourth)?;
    cells.set_descr(d1, node)?;
    Some(Flow::Next)
}
