// Writes and reads an image of many words and of all cells that there may be, and takes the time of
// each.

use image_file::{Image, load_image, write_image};
use layout_params::{Layout, STANDARD_PARAMS, read_params};
use sil_base::MAX_CELLS;
use std::alloc::{AllocError, Global};
use std::io;
use std::time::Instant;

/// The image of so many words and of as many static cells as there may be, where it is one.
fn full_image(alloc: Global, count: u32) -> Result<Option<Image>, AllocError> {
    let Ok(params) = read_params(alloc, STANDARD_PARAMS) else {
        return Ok(None);
    };
    let settings = params.settings();
    let statics = (MAX_CELLS - settings.blank_cells()) as usize;
    let mut words = Vec::new(alloc);
    for word in 0..count {
        words.push(word)?;
    }
    let mut cells = Vec::new(alloc);
    cells.resize(statics * settings.numbers().descr() as usize, 0)?;
    let mut kinds = Vec::new(alloc);
    kinds.resize(statics, 0)?;
    Ok(Image::new(
        &params,
        Vec::new(alloc),
        words,
        Vec::new(alloc),
        cells,
        kinds,
        Vec::new(alloc),
    ))
}

fn agree(one: &Image, other: &Image) -> bool {
    one.words() == other.words() && one.cells() == other.cells() && one.kinds() == other.kinds()
}

/// Prints the milliseconds of writing and of reading an image of so many words.
pub fn measure(rt: &HostRuntime, count: u32) -> io::Result<()> {
    let alloc = rt.alloc();
    let Some(image) = full_image(alloc, count)? else {
        return println!(rt; "no image");
    };
    let start = Instant::now(rt)?;
    let bytes = write_image(alloc, &image)?;
    let written = start.elapsed(rt)?.as_millis();
    let start = Instant::now(rt)?;
    let Ok(again) = load_image(alloc, &bytes) else {
        return println!(rt; "not read");
    };
    let read = start.elapsed(rt)?.as_millis();
    let (size, cells) = (bytes.len(), image.kinds().len());
    if agree(&image, &again) {
        println!(rt;
            "{count} words, {cells} cells, {size} bytes: written in {written} ms, read in {read} ms, both agree"
        )
    } else {
        println!(rt; "they differ")
    }
}
