// The lines of an image's statements.
ghost use Rattle.std.specs.Prelude.{◌≡◌, ◌<◌, ◌+◌, ◌^◌, IfOk, length, slice_get};
ghost use Rattle.image_file.specs.Image.{entry_of};
ghost use Rattle.image_runs.specs.Listings.{code_end, entry_text, listed_line, next_place};
ghost use Rattle.image_runs.specs.TracedRuns.{traced_line};

use image_file::Image;
use itoa::Buffer;
use sil_base::FIRST_WORD;
use sil_macros::{Macro, name_of};
use std::alloc::{AllocError, Global};

/// The number of a statement, its card's, and its macro.
fn entry_text(alloc: Global, k: u32, entry: &(u64, u32, Macro)) -> Result<Vec<u8>, AllocError>
    ensures { IfOk result (λ text. text.items ≡ entry_text k (entry_of entry.now)) }
{
    let mut text = Vec::from_slice(alloc, Buffer::new().format(k).as_bytes())?;
    text.extend_from_slice(b" ")?;
    text.extend_from_slice(Buffer::new().format(entry.1).as_bytes())?;
    text.extend_from_slice(b" ")?;
    text.extend_from_slice(name_of(entry.2))?;
    Ok(text)
}

/// The line of a statement that is met, and nothing from the number of statements on.
pub fn traced_line(alloc: Global, image: &Image, k: u32) -> Result<Vec<u8>, AllocError>
    ensures { IfOk result (λ line. line.items ≡ traced_line k (slice_get image.now.statements k)) }
{
    let Some(entry) = image.statement(k) else {
        return Ok(Vec::new(alloc));
    };
    let mut line = entry_text(alloc, k, &entry)?;
    line.extend_from_slice(b"\n")?;
    Ok(line)
}

/// The place after the code.
fn code_end(image: &Image) -> u64
    ensures { result ≡ code_end image.now }
{
    FIRST_WORD + 4 * image.words().len() as u64
}

/// The place of the statement after this one, or of the end of the code.
fn next_place(image: &Image, k: u32) -> u64
    requires { k < 2 ^ 31 }
    ensures { result ≡ next_place image.now k }
{
    match image.statement(k + 1) {
        Some(entry) => entry.0,
        None => code_end(image),
    }
}

/// The line of a statement in a list, and nothing from the number of statements on.
pub fn listed_line(alloc: Global, image: &Image, k: u32) -> Result<Vec<u8>, AllocError>
    requires { k < 2 ^ 31 }
    ensures { IfOk result (λ line. line.items ≡ listed_line image.now k (slice_get image.now.statements k)) }
{
    let Some(entry) = image.statement(k) else {
        return Ok(Vec::new(alloc));
    };
    let words = next_place(image, k).saturating_sub(entry.0) / 4;
    let mut line = entry_text(alloc, k, &entry)?;
    line.extend_from_slice(b" ")?;
    line.extend_from_slice(Buffer::new().format(entry.0).as_bytes())?;
    line.extend_from_slice(b" ")?;
    line.extend_from_slice(Buffer::new().format(words).as_bytes())?;
    line.extend_from_slice(b"\n")?;
    Ok(line)
}
