// The parts of an image that its program decides.
ghost use Rattle.std.specs.Prelude.{◌≡◌, ◌<◌, ◌^◌, length, map, All, IfOk};
ghost use Rattle.std.specs.List.{flat_map};
ghost use Rattle.layout_params.specs.Packing.{FitsFields, packing};
ghost use Rattle.sil_model.specs.CellWords.{kind_of};

use layout_params::{Cell, Layout, pack_cell};
use sil_macros::Macro;
use sil_model::Statement;
use std::alloc::{AllocError, Global};

/// The entry of a statement: its place, its card and its macro.
fn entry(place: u64, card: u32, name: Macro) -> (u64, u32, Macro)
    ensures value { result ≡ (place, card, name) }
    ensures range { result.1 < 2 ^ 32 }
{
    (place, card, name)
}

/// The place, the card and the macro of each statement.
#[tactic(auto, using(crate::proofs::Entries::more_cards))]
pub fn entries(
    alloc: Global,
    statements: &[Statement],
    places: &[u64],
) -> Result<Vec<(u64, u32, Macro)>, AllocError>
    requires { length places.now ≡ length statements.now }
    ensures places { IfOk result (λ es. map (λ e. e.0) es.items ≡ places.now) }
    ensures cards { IfOk result (λ es. map (λ e. e.1) es.items ≡ map (λ s. s.card) statements.now) }
    ensures names { IfOk result (λ es. map (λ e. e.2) es.items ≡ map (λ s. s.name) statements.now) }
    ensures range { IfOk result (λ es. All (λ e. e.1 < 2 ^ 32) es.items) }
{
    let mut entries = Vec::new(alloc);
    for (k, statement) in statements.iter().enumerate() {
        entries.push(entry(places[k], statement.card, statement.name))?;
    }
    Ok(entries)
}

/// The byte that tells what a cell is.
fn kind(cell: &Cell) -> u8
    ensures { result ≡ kind_of cell.now }
{
    match cell {
        Cell::Descr(_) => 0,
        Cell::Chars(_) => 1,
    }
}

/// The kinds of cells.
pub fn kinds(alloc: Global, cells: &[Cell]) -> Result<Vec<u8>, AllocError>
    ensures { IfOk result (λ bytes. bytes.items ≡ map kind_of cells.now) }
{
    let mut kinds = Vec::new(alloc);
    for cell in cells {
        kinds.push(kind(cell))?;
    }
    Ok(kinds)
}

/// The packed bytes of cells, with 0 in every free byte.
pub fn pack_cells<L: Layout>(
    alloc: Global,
    layout: &L,
    cells: &[Cell],
) -> Result<Vec<u8>, AllocError>
    requires { All (FitsFields (L.sizes layout.now)) cells.now }
    ensures { IfOk result (λ bytes. bytes.items ≡ flat_map (packing (L.sizes layout.now)) cells.now) }
{
    let mut bytes = Vec::new(alloc);
    let mut room = [0; 64];
    let size = layout.descr() as usize;
    for cell in cells {
        pack_cell(layout, cell, &mut room[..size]);
        bytes.extend_from_slice(&room[..size])?;
    }
    Ok(bytes)
}
