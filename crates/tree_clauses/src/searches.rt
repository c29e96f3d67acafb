// Walks over blocks, titles and alternatives: the turns, and the walks.
ghost use Rattle.std.specs.Prelude.{◌≡◌, ◌<◌, ◌+◌, ◌*◌, ◌^◌, length, pos};
ghost use Rattle.sil_model.specs.Integers.{◌⊞◌};
ghost use Rattle.tree_clauses.specs.Loops.{walk};
ghost use Rattle.tree_clauses.specs.PatternClauses.{greatest, has_flags, lesser, link_turn, lowest_turn, pair_turn, same_descr, title_turn};

use crate::trees::{left_son, right_sibling};
use crate::turns::Lowest;
use layout_params::Descr;
use sil_model::{Cells, a_field, f_field, integer, wrapped_difference, wrapped_sum};
use std::ops::ControlFlow;

/// Whether descriptors have the same A, F and V.
fn same(x: &Descr, y: &Descr) -> bool
    ensures { result ≡ same_descr x.now y.now }
{
    x.a == y.a && x.f == y.f && x.v == y.v
}

/// Whether the flags have all bits of the others.
fn has_flags(f: u32, flags: u64) -> bool
    ensures { result ≡ has_flags f flags }
{
    u64::from(f) & flags == flags
}

/// A turn of the search for a key in a block.
fn pair_turn(
    cells: &Cells,
    first: i64,
    key: &Descr,
    size: u64,
    offset: i64,
) -> Option<ControlFlow<Option<i64>, i64>>
    requires { size < 2 ^ 63 }
    ensures { result ≡ pair_turn cells.now first key.now size offset }
{
    if offset < integer(size) {
        let x = cells.descr(wrapped_sum(first, offset))?;
        if same(&x, key) {
            Some(ControlFlow::Break(Some(offset)))
        } else {
            let step = integer(2 * cells.cell_size());
            Some(ControlFlow::Continue(wrapped_sum(offset, step)))
        }
    } else {
        Some(ControlFlow::Break(None))
    }
}

/// The offset of the first key in a block, where there is one.
pub(crate) fn find_pair(cells: &Cells, first: i64, key: &Descr, size: u64) -> Option<Option<i64>>
    requires { size < 2 ^ 63 }
    ensures { result ≡ walk (pair_turn cells.now first key.now size) (length cells.now.cells + 1) (pos 0) }
{
    let mut offset = 0;
    for i in 0..cells.count() + 1 {
        match pair_turn(cells, first, key, size, offset)? {
            ControlFlow::Continue(next) => offset = next,
            ControlFlow::Break(found) => return Some(found),
        }
    }
    None
}

/// A turn of the search for a title.
fn title_turn(cells: &Cells, from: i64, flags: u64, back: i64) -> Option<ControlFlow<i64, i64>>
    ensures { result ≡ title_turn cells.now from flags back }
{
    let f = f_field(cells, wrapped_difference(from, back))?;
    if has_flags(f, flags) {
        Some(ControlFlow::Break(back))
    } else {
        let step = integer(cells.cell_size());
        Some(ControlFlow::Continue(wrapped_sum(back, step)))
    }
}

/// How far below an address the title is.
pub(crate) fn find_title(cells: &Cells, from: i64, flags: u64) -> Option<i64>
    ensures { result ≡ walk (title_turn cells.now from flags) (length cells.now.cells) (pos 0) }
{
    let mut back = 0;
    for i in 0..cells.count() {
        match title_turn(cells, from, flags, back)? {
            ControlFlow::Continue(next) => back = next,
            ControlFlow::Break(found) => return Some(found),
        }
    }
    None
}

/// A turn of the search for the last alternative.
fn link_turn(cells: &Cells, first: i64, offset: i64) -> Option<ControlFlow<i64, i64>>
    ensures { result ≡ link_turn cells.now first offset }
{
    let next = a_field(cells, wrapped_sum(first, offset))?;
    if next == 0 {
        Some(ControlFlow::Break(offset))
    } else {
        Some(ControlFlow::Continue(next))
    }
}

/// The offset of the last alternative.
pub(crate) fn find_last(cells: &Cells, first: i64) -> Option<i64>
    ensures { result ≡ walk (link_turn cells.now first) (length cells.now.cells) (pos 0) }
{
    let mut offset = 0;
    for i in 0..cells.count() {
        match link_turn(cells, first, offset)? {
            ControlFlow::Continue(next) => offset = next,
            ControlFlow::Break(found) => return Some(found),
        }
    }
    None
}

/// The lesser integer.
fn lesser(x: i64, y: i64) -> i64
    ensures { result ≡ lesser x y }
{
    if x < y { x } else { y }
}

/// A turn of the search for the least value of all alternatives.
fn lowest_turn(cells: &Cells, node: i64, so_far: Lowest) -> Option<ControlFlow<i64, Lowest>>
    ensures { result ≡ lowest_turn cells.now node so_far }
{
    let taken = a_field(
        cells,
        wrapped_sum(right_sibling(cells, node), so_far.offset),
    )?;
    let next = a_field(cells, wrapped_sum(left_son(cells, node), so_far.offset))?;
    let least = lesser(taken, so_far.least);
    if next == 0 {
        Some(ControlFlow::Break(least))
    } else {
        Some(ControlFlow::Continue(Lowest {
            offset: next,
            least,
        }))
    }
}

/// The least value of all alternatives.
pub(crate) fn find_lowest(cells: &Cells, node: i64) -> Option<i64>
    ensures { result ≡ walk (lowest_turn cells.now node) (length cells.now.cells) (record { offset = pos 0; least = greatest }) }
{
    let mut so_far = Lowest {
        offset: 0,
        least: i64::MAX,
    };
    for i in 0..cells.count() {
        match lowest_turn(cells, node, so_far)? {
            ControlFlow::Continue(next) => so_far = next,
            ControlFlow::Break(found) => return Some(found),
        }
    }
    None
}
