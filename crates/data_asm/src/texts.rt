// Characters in cells.
ghost use Rattle.std.specs.Prelude.{◌≡◌, ◌≤◌, ◌++◌, length, take, drop, OnOk, replicate};
ghost use Rattle.data_asm.specs.CharacterCells.{characters, text_cells, blank_cells};

use layout_params::Cell;
use std::alloc::AllocError;

/// A cell of these characters, and zero bytes after them.
fn characters(text: &[u8]) -> Cell
    requires { length text.now ≤ 64 }
    ensures { result ≡ characters text.now }
{
    let mut bytes = [0; 64];
    bytes[..text.len()].copy_from_slice(text);
    Cell::Chars(bytes)
}

/// The first characters of a text, of which there are at most so many, and those after them.
fn cut(text: &[u8], size: usize) -> (&[u8], &[u8])
    ensures first { result.0.now ≡ take size text.now }
    ensures rest { result.1.now ≡ drop size text.now }
{
    if size < text.len() {
        (&text[..size], &text[size..])
    } else {
        (text, b"")
    }
}

/// Appends a text, in cells of so many characters.
pub(crate) fn push_text(cells: &mut Vec<Cell>, size: usize, text: &[u8]) -> Result<(), AllocError>
    requires some { 1 ≤ size }
    requires few { size ≤ 64 }
    ensures { OnOk result (cells.new.items ≡ cells.old.items ++ text_cells size text.now) }
{
    let mut rest = text;
    while !rest.is_empty() {
        let (first, more) = cut(rest, size);
        cells.push(characters(first))?;
        rest = more;
    }
    Ok(())
}

/// Appends so many copies of a cell.
pub(crate) fn push_copies(cells: &mut Vec<Cell>, count: u64, cell: Cell) -> Result<(), AllocError>
    ensures { OnOk result (cells.new.items ≡ cells.old.items ++ replicate count cell) }
{
    for _ in 0..count {
        cells.push(cell)?;
    }
    Ok(())
}

/// Appends so many blanks, in cells of so many characters.
#[tactic(auto, using(crate::proofs::TextLemmas::blank_line))]
pub(crate) fn push_blanks(cells: &mut Vec<Cell>, size: usize, count: u64) -> Result<(), AllocError>
    requires some { 1 ≤ size }
    requires few { size ≤ 64 }
    ensures { OnOk result (cells.new.items ≡ cells.old.items ++ blank_cells size count) }
{
    let blanks = [b' '; 64];
    push_copies(
        cells,
        count.div_ceil(size as u64),
        characters(&blanks[..size]),
    )
}
