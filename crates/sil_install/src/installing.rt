// From a program to the bytes of its image.
ghost use Rattle.std.specs.Prelude.{◌≡◌, IfOk};
ghost use Rattle.image_file.specs.Image.{IsImage};
ghost use Rattle.rv_emit.specs.Parts.{IsImageOf};
ghost use Rattle.macro_expand.specs.Expanded.{AreExpanded};
ghost use Rattle.sil_model.specs.WellFormed.{IsWellFormed};
ghost use Rattle.sil_install.specs.Installed.{Behaves, IsInstalled};

use crate::law::law_of_built_programs;
use crate::parts::{entries, kinds, pack_cells};
use crate::tables::table_bytes;
use crate::words::program_words;
use image_file::{Image, write_image};
use layout_params::Params;
use rv_emit::Emitted;
use sil_check::Checked;
use sil_model::Program;
use std::alloc::{AllocError, Global};

/// The image of a program, which behaves as the program.
fn image_of(alloc: Global, program: &Program, params: &Params) -> Result<Image, AllocError>
    requires well_formed { IsWellFormed program.now params.now.settings }
    requires expanded { AreExpanded program.now }
    ensures is_image { IfOk result IsImage }
    ensures of { IfOk result (λ i. IsImageOf i program.now params.now.settings) }
    ensures behaves { IfOk result (λ i. Behaves i program.now params.now) }
{
    let cells = program.cells.items();
    let emitted = program_words(alloc, program, params)?;
    let entries = entries(alloc, program.statements.items(), emitted.places.items())?;
    let bytes = pack_cells(alloc, params.numbers(), cells)?;
    let kinds = kinds(alloc, cells)?;
    let tables = table_bytes(alloc, program.tables.items())?;
    let Emitted {
        words,
        places: _,
        ops: _,
        constants,
    } = emitted;
    match Image::new(
        params,
        entries,
        words.into_items(),
        constants.into_items(),
        bytes,
        kinds,
        tables,
    ) {
        Some(image) => Ok(image),
        None => unreachable!(),
    }
}

/// The bytes of an image that is installed for a checked program. The only error is want of memory.
pub fn install(alloc: Global, checked: &Checked) -> Result<Vec<u8>, AllocError>
    ensures { IfOk result (λ bytes. IsInstalled bytes.items checked.now.program checked.now.parameters) }
{
    law_of_built_programs();
    let image = image_of(alloc, &checked.program, &checked.params)?;
    write_image(alloc, &image)
}
