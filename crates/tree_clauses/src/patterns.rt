// The macros on patterns and blocks that search, one function each.
ghost use Rattle.std.specs.Prelude.{◌≡◌, ◌<◌, ◌≤◌, ◌^◌};
ghost use Rattle.layout_params.specs.declared.cell.Cell.TheVariants as cell;
ghost use Rattle.sil_model.specs.Effects.{after_flow};
ghost use Rattle.sil_model.specs.Memory.{FitsCell};
ghost use Rattle.tree_clauses.specs.PatternClauses.{deliver, found, found_at, linkor, locapt, locapv, located, lvalue, titled};

use crate::searches::{find_last, find_lowest, find_pair, find_title};
use crate::trees::left_son;
use layout_params::Descr;
use sil_model::{
    Arg, Cells, Flow, a_field, goto, integer, place, set_a_field, set_integer, v_field,
    wrapped_difference, wrapped_sum,
};

/// Makes the cell at an address the integer with the F and V of a descriptor, and goes to the
/// second location; where there is no integer, only goes to the first.
pub(crate) fn deliver(
    cells: &mut Cells,
    at: i64,
    like: &Descr,
    integer: Option<i64>,
    failure: Flow,
    success: Flow,
) -> Option<Flow>
    requires { FitsCell cells.old.limits (cell.Descr like.now) }
    ensures { deliver cells.old at like.now integer failure success ≡ after_flow result cells.new }
{
    match integer {
        None => Some(failure),
        Some(a) => {
            cells.set_descr(
                at,
                Descr {
                    a,
                    f: like.f,
                    v: like.v,
                },
            )?;
            Some(success)
        }
    }
}

/// The A field of a block's cell, where one was found.
fn found_at(block: &Descr, offset: Option<i64>) -> Option<i64>
    ensures { result ≡ found_at block.now offset }
{
    match offset {
        None => None,
        Some(offset) => Some(wrapped_sum(block.a, offset)),
    }
}

/// The offset of the first key in a block, whose cell is read where the block isn't empty.
fn find(cells: &Cells, d3: i64, block: &Descr, cell: u64, size: u64) -> Option<Option<i64>>
    requires cell { cell ≤ 2 }
    requires size { size < 2 ^ 63 }
    ensures { result ≡ found cells.now d3 block.now cell size }
{
    if size == 0 {
        Some(None)
    } else {
        let key = cells.descr(d3)?;
        let first = wrapped_sum(block.a, integer(cell * cells.cell_size()));
        find_pair(cells, first, &key, size)
    }
}

/// The first pair of a block whose cell of that number is a key.
#[tactic(auto, unfolding(crate::specs::PatternClauses::located))]
fn located(args: &[Arg], cells: &mut Cells, cell: u64) -> Option<Flow>
    requires { cell ≤ 2 }
    ensures { located cell args.now cells.old ≡ after_flow result cells.new }
{
    let d1 = place(args, 0)?;
    let d2 = place(args, 1)?;
    let d3 = place(args, 2)?;
    let failure = goto(args, 3)?;
    let success = goto(args, 4)?;
    let block = cells.descr(d2)?;
    let size = v_field(cells, block.a)?;
    let offset = find(cells, d3, &block, cell, size)?;
    deliver(
        cells,
        d1,
        &block,
        found_at(&block, offset),
        failure,
        success,
    )
}

/// `LOCAPT D1,D2,D3,LF,LS`: the first pair of the block at D2 whose first cell is D3.
pub fn locapt(args: &[Arg], cells: &mut Cells) -> Option<Flow>
    ensures { locapt args.now cells.old ≡ after_flow result cells.new }
{
    located(args, cells, 1)
}

/// `LOCAPV D1,D2,D3,LF,LS`: the first pair of the block at D2 whose second cell is D3.
pub fn locapv(args: &[Arg], cells: &mut Cells) -> Option<Flow>
    ensures { locapv args.now cells.old ≡ after_flow result cells.new }
{
    located(args, cells, 2)
}

/// `TOP D1,D2,D3`: the title at or below D3, by the flags of titles.
#[tactic(auto, unfolding(crate::specs::PatternClauses::titled))]
pub fn top(args: &[Arg], cells: &mut Cells, flags: u64) -> Option<Flow>
    ensures { titled flags args.now cells.old ≡ after_flow result cells.new }
{
    let d1 = place(args, 0)?;
    let d2 = place(args, 1)?;
    let d3 = place(args, 2)?;
    let x = cells.descr(d3)?;
    let back = find_title(cells, x.a, flags)?;
    let a = wrapped_difference(x.a, back);
    cells.set_descr(d1, Descr { a, f: x.f, v: x.v })?;
    set_a_field(cells, d2, back)?;
    Some(Flow::Next)
}

/// `LINKOR D1,D2`: the last alternative of the pattern at D1 gets D2.A as its offset.
#[tactic(auto, unfolding(crate::specs::PatternClauses::linkor))]
pub fn linkor(args: &[Arg], cells: &mut Cells) -> Option<Flow>
    ensures { linkor args.now cells.old ≡ after_flow result cells.new }
{
    let d1 = place(args, 0)?;
    let d2 = place(args, 1)?;
    let a = a_field(cells, d1)?;
    let b = a_field(cells, d2)?;
    let first = left_son(cells, a);
    let offset = find_last(cells, first)?;
    set_a_field(cells, wrapped_sum(first, offset), b)?;
    Some(Flow::Next)
}

/// `LVALUE D1,D2`: D1 := (the least value of all alternatives of the pattern at D2, 0, 0).
#[tactic(auto, unfolding(crate::specs::PatternClauses::lvalue))]
pub fn lvalue(args: &[Arg], cells: &mut Cells) -> Option<Flow>
    ensures { lvalue args.now cells.old ≡ after_flow result cells.new }
{
    let d1 = place(args, 0)?;
    let d2 = place(args, 1)?;
    let a = a_field(cells, d2)?;
    let least = find_lowest(cells, a)?;
    set_integer(cells, d1, least)?;
    Some(Flow::Next)
}
