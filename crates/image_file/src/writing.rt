// The bytes of an image file. All numbers are little-endian.
ghost use Rattle.std.specs.Prelude.{◌≡◌, ◌++◌, IfOk};
ghost use Rattle.image_file.specs.Spelling.{spelling, mark_part, version_part, settings_part, counts_of, counts_part};
ghost use Rattle.image_file.specs.Version.{kinds_part};

use crate::counts::Counts;
use crate::entries::put_entries;
use crate::image::Image;
use crate::numbers::{bytes_32, put_all_32, put_all_64};
use crate::version::{VERSION, put_kinds};
use sil_base::TABLE_BYTES;
use std::alloc::{AllocError, Global};

/// The bytes of an image file.
#[tactic(auto, unfolding(crate::specs::Spelling::spelling))]
pub fn write_image(alloc: Global, image: &Image) -> Result<Vec<u8>, AllocError>
    ensures { IfOk result (λ bytes. bytes.items ≡ spelling image.now) }
{
    let mut out = Vec::new(alloc);
    put_heading(&mut out)?;
    put_settings(&mut out, image)?;
    put_counts(&mut out, image)?;
    put_entries(&mut out, image.entries())?;
    put_all_32(&mut out, image.words())?;
    put_data(&mut out, image)?;
    Ok(out)
}

/// Appends the first eight bytes and the version.
fn put_heading(out: &mut Vec<u8>) -> Result<(), AllocError>
    ensures { IfOk result (λ _. out.new.items ≡ out.old.items ++ mark_part ++ version_part) }
{
    out.extend_from_slice(b"SILRV64\n")?;
    out.extend_from_slice(&bytes_32(VERSION))
}

/// Appends the parameters and the date.
#[tactic(auto, unfolding(crate::specs::Spelling::settings_part))]
fn put_settings(out: &mut Vec<u8>, image: &Image) -> Result<(), AllocError>
    ensures { IfOk result (λ _. out.new.items ≡ out.old.items ++ settings_part image.now.settings) }
{
    put_all_64(out, &image.parameters())?;
    out.extend_from_slice(&image.date())?;
    Ok(())
}

/// Appends the numbers of statements, code words, constant bytes, static cells and tables.
#[tactic(auto, unfolding(crate::specs::Spelling::counts_part))]
fn put_counts(out: &mut Vec<u8>, image: &Image) -> Result<(), AllocError>
    ensures { IfOk result (λ _. out.new.items ≡ out.old.items ++ counts_part (counts_of image.now)) }
{
    let counts = Counts {
        statements: image.statements(),
        words: image.words().len() as u32,
        constants: image.constants().len() as u32,
        cells: image.kinds().len() as u32,
        tables: (image.tables().len() / TABLE_BYTES) as u32,
    };
    put_all_32(out, &counts.numbers())
}

/// Appends the constants, the static cells, their kinds and the tables.
fn put_data(out: &mut Vec<u8>, image: &Image) -> Result<(), AllocError>
    ensures { IfOk result (λ _. out.new.items ≡ out.old.items ++ image.now.constants ++ image.now.cells ++ kinds_part image.now.kinds ++ image.now.tables) }
{
    out.extend_from_slice(image.constants())?;
    out.extend_from_slice(image.cells())?;
    put_kinds(out, image.kinds())?;
    out.extend_from_slice(image.tables())
}
