// Copies of patterns.
ghost use Rattle.std.specs.Prelude.{◌≡◌, ◌≤◌, ◌<◌, ◌^◌, IfSome, length, pos};
ghost use Rattle.sil_model.specs.Access.{set_whole_at, written};
ghost use Rattle.sil_model.specs.Effects.{after_flow};
ghost use Rattle.sil_model.specs.Integers.{within};
ghost use Rattle.sil_model.specs.Memory.{FitsDescr, SameShape};
ghost use Rattle.tree_clauses.specs.Loops.{walk};
ghost use Rattle.tree_clauses.specs.PatternClauses.{copied, copied_past, copied_turn, copying_at, copying_on, cpypat, fourth_place, front_written, node_size, node_turn, offsets_at, raised, rest_written, risen};

use crate::trees::{father, left_son, maybe_descr, node_code, right_sibling, set_maybe_descr};
use crate::turns::{Copying, Offsets};
use layout_params::Descr;
use sil_model::{
    Arg, Cells, Flow, a_field, integer, place, set_a_field, wrapped_difference, wrapped_sum,
};
use std::ops::ControlFlow;

/// How far the nodes of a copy move.
#[tactic(auto, unfolding(crate::specs::PatternClauses::offsets_at))]
fn offsets(cells: &Cells, d3: i64, d4: i64, d5: i64) -> Option<Offsets>
    ensures { result ≡ offsets_at cells.now d3 d4 d5 }
{
    let place = a_field(cells, d3)?;
    let next = a_field(cells, d4)?;
    let instead = a_field(cells, d5)?;
    Some(Offsets {
        place,
        next,
        instead,
    })
}

/// Where a copy begins.
#[tactic(auto, unfolding(crate::specs::PatternClauses::copying_at))]
fn copying(cells: &Cells, d1: i64, d2: i64, d6: i64) -> Option<Copying>
    ensures { result ≡ copying_at cells.now d1 d2 d6 }
{
    let to = a_field(cells, d1)?;
    let from = a_field(cells, d2)?;
    let left = a_field(cells, d6)?;
    Some(Copying { to, from, left })
}

/// The offset of a copied node, which rises where it isn't 0.
fn risen(a: i64, by: i64) -> i64
    ensures { result ≡ risen a by }
{
    if a == 0 { 0 } else { wrapped_sum(a, by) }
}

/// The value of a copied node, which rises where it isn't 0, and is another one where it is.
fn raised(v: u64, by: i64, instead: i64) -> i128
    ensures { result ≡ raised v by instead }
{
    if v == 0 {
        i128::from(instead)
    } else {
        i128::from(v) + i128::from(by)
    }
}

/// The place of the fourth cell of a node, where the value of the first one says that it is there.
fn fourth_place(cells: &Cells, node: i64, v: u64) -> Option<i64>
    ensures { result ≡ fourth_place cells.now node v }
{
    if v == 3 {
        Some(node_code(cells, node))
    } else {
        None
    }
}

/// The bytes of a node, by the value of its first cell.
fn node_size(cells: &Cells, v: u64) -> i64
    requires { v < 2 ^ 48 }
    ensures { result ≡ node_size cells.now v }
{
    integer((1 + v) * cells.cell_size())
}

/// Past a node of so many bytes and its copy, and on while bytes are left.
fn copy_on(at: Copying, size: i64) -> ControlFlow<Copying, Copying>
    ensures { result ≡ copying_on (copied_past size at) }
{
    let next = Copying {
        to: wrapped_sum(at.to, size),
        from: wrapped_sum(at.from, size),
        left: wrapped_difference(at.left, size),
    };
    if 0 < next.left {
        ControlFlow::Continue(next)
    } else {
        ControlFlow::Break(next)
    }
}

/// An integer as a field without a sign holds it, up to a limit.
#[tactic(auto, unfolding(sil_model::specs::Integers::within))]
fn within(limit: u64, value: i128) -> Option<u64>
    ensures value { result ≡ within limit value }
    ensures small { IfSome result (λ n. n ≤ limit) }
{
    let n = u64::try_from(value).ok()?;
    if n <= limit { Some(n) } else { None }
}

/// Makes the cell at an address a descriptor whose V is an integer, where it is within the limit.
#[tactic(auto, unfolding(sil_model::specs::Integers::within))]
fn set_whole(cells: &mut Cells, at: i64, a: i64, f: u32, value: i128) -> Option<()>
    requires { f ≤ cells.old.limits.flag_limit }
    ensures writes { set_whole_at cells.old at a (pos f) value ≡ written result cells.new }
    ensures keeps { SameShape cells.old cells.new }
{
    let v = within(cells.limits().value_limit, value)?;
    cells.set_descr(at, Descr { a, f, v })
}

/// Writes the first two cells of a node's copy.
#[tactic(auto, unfolding(crate::specs::PatternClauses::front_written))]
fn write_front(cells: &mut Cells, by: Offsets, to: i64, first: Descr, q: Descr) -> Option<()>
    requires first { FitsDescr cells.old.limits first }
    requires q { q.f ≤ cells.old.limits.flag_limit }
    ensures writes { front_written cells.old by to first q ≡ written result cells.new }
    ensures keeps { SameShape cells.old cells.new }
{
    let second = left_son(cells, to);
    cells.set_descr(father(cells, to), first)?;
    set_whole(
        cells,
        second,
        risen(q.a, by.next),
        q.f,
        raised(q.v, by.next, by.instead),
    )
}

/// Writes the third cell of a node's copy, and the fourth where there is one.
#[tactic(auto, unfolding(crate::specs::PatternClauses::rest_written))]
fn write_rest(
    cells: &mut Cells,
    by: Offsets,
    to: i64,
    p: Descr,
    fourth: Option<Descr>,
) -> Option<()>
    requires { IfSome fourth (FitsDescr cells.old.limits) }
    ensures writes { rest_written cells.old by to p fourth ≡ written result cells.new }
    ensures keeps { SameShape cells.old cells.new }
{
    let third = right_sibling(cells, to);
    let last = node_code(cells, to);
    let value = i128::from(p.v) + i128::from(by.place);
    set_whole(cells, third, wrapped_sum(p.a, by.place), 0, value)?;
    set_maybe_descr(cells, last, fourth)
}

/// Copies a node: all its cells are read, then those of the copy are written.
fn copy_node(cells: &mut Cells, by: Offsets, at: Copying) -> Option<ControlFlow<Copying, Copying>>
    ensures copies { node_turn by (record { memory = cells.old; at = at }) ≡ copied_turn result cells.new }
    ensures keeps { SameShape cells.old cells.new }
{
    let first = cells.descr(father(cells, at.from))?;
    let q = cells.descr(left_son(cells, at.from))?;
    let p = cells.descr(right_sibling(cells, at.from))?;
    let fourth = maybe_descr(cells, fourth_place(cells, at.from, first.v))?;
    let size = node_size(cells, first.v);
    write_front(cells, by, at.to, first, q)?;
    write_rest(cells, by, at.to, p, fourth)?;
    Some(copy_on(at, size))
}

/// Copies nodes while bytes are left, at most as many as there are cells.
fn copy_nodes(cells: &mut Cells, by: Offsets, first: Copying) -> Option<Copying>
    ensures { walk (node_turn by) (length cells.old.cells) (record { memory = cells.old; at = first }) ≡ copied result cells.new }
{
    let mut at = first;
    for i in 0..cells.count() {
        match copy_node(cells, by, at)? {
            ControlFlow::Continue(next) => at = next,
            ControlFlow::Break(last) => return Some(last),
        }
    }
    None
}

/// `CPYPAT D1,D2,D3,D4,D5,D6`: the pattern at D2 of D6.A bytes is copied to D1, node by node;
/// D1.A := the place after the copy.
#[tactic(auto, unfolding(crate::specs::PatternClauses::cpypat))]
pub fn cpypat(args: &[Arg], cells: &mut Cells) -> Option<Flow>
    ensures { cpypat args.now cells.old ≡ after_flow result cells.new }
{
    let d1 = place(args, 0)?;
    let d2 = place(args, 1)?;
    let d3 = place(args, 2)?;
    let d4 = place(args, 3)?;
    let d5 = place(args, 4)?;
    let d6 = place(args, 5)?;
    let by = offsets(cells, d3, d4, d5)?;
    let first = copying(cells, d1, d2, d6)?;
    let last = copy_nodes(cells, by, first)?;
    set_a_field(cells, d1, last.to)?;
    Some(Flow::Next)
}
