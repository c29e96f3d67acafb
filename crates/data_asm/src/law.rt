// The law of static cells.
ghost use Rattle.data_asm.specs.Laws.{LawOfStaticCells};

use sil_symbols::law_of_sizes;

/// Where a source has no faults, the cells of a statement stand after those of all statements before
/// it, so the label of a data statement has the address of the first of them.
pub fn law_of_static_cells()
    ensures { LawOfStaticCells }
{
    law_of_sizes();
}
