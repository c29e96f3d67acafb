// Blocks of cells that are moved.
ghost use Rattle.std.specs.Prelude.{◌≡◌};
ghost use Rattle.sil_model.specs.Access.{written};
ghost use Rattle.sil_model.specs.Effects.{after_flow};
ghost use Rattle.sil_model.specs.Memory.{SameShape};
ghost use Rattle.tree_clauses.specs.PatternClauses.{cell_turn, cells_moved, movblk, moving, whole_cells};

use sil_model::{Arg, Cells, Flow, a_field, integer, place, wrapped_sum};

/// The number of cells of so many bytes; none where it isn't whole, or greater than that of all
/// cells.
#[tactic(auto, unfolding(crate::specs::PatternClauses::whole_cells))]
fn whole_cells(cells: &Cells, size: i64) -> Option<usize>
    ensures { result ≡ whole_cells cells.now size }
{
    let size = u64::try_from(size).ok()?;
    let cell_size = cells.cell_size();
    let count = (size / cell_size) as usize;
    if size % cell_size == 0 && count <= cells.count() {
        Some(count)
    } else {
        None
    }
}

/// Moves a cell, and gives the offset of the next one.
fn move_cell(cells: &mut Cells, to: i64, from: i64, offset: i64) -> Option<i64>
    ensures moves { cell_turn to from (record { memory = cells.old; offset = offset }) ≡ moving result cells.new }
    ensures keeps { SameShape cells.old cells.new }
{
    let cell = cells.cell(wrapped_sum(from, offset))?;
    cells.set_cell(wrapped_sum(to, offset), cell)?;
    Some(wrapped_sum(offset, integer(cells.cell_size())))
}

/// Moves so many cells, lowest first, from behind one address to behind another.
fn move_cells(cells: &mut Cells, to: i64, from: i64, count: usize) -> Option<()>
    ensures { cells_moved to from count cells.old ≡ written result cells.new }
{
    let mut offset = integer(cells.cell_size());
    for i in 0..count {
        offset = move_cell(cells, to, from, offset)?;
    }
    Some(())
}

/// `MOVBLK D1,D2,D3`: the cells of the block at D2, but for its title, go to the block at D1.
#[tactic(auto, unfolding(crate::specs::PatternClauses::movblk))]
pub fn movblk(args: &[Arg], cells: &mut Cells) -> Option<Flow>
    ensures { movblk args.now cells.old ≡ after_flow result cells.new }
{
    let d1 = place(args, 0)?;
    let d2 = place(args, 1)?;
    let d3 = place(args, 2)?;
    let to = a_field(cells, d1)?;
    let from = a_field(cells, d2)?;
    let size = a_field(cells, d3)?;
    let count = whole_cells(cells, size)?;
    move_cells(cells, to, from, count)?;
    Some(Flow::Next)
}
