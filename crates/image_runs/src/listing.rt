// Lists of an image's statements.
ghost use Rattle.command_report.specs.Noted.{Noted};
ghost use Rattle.image_runs.specs.Listings.{listing};

use crate::lines::listed_line;
use command_report::note_made;
use image_file::Image;
use sil_base::{Put, Sink};
use std::alloc::Global;

/// Notes a line for each statement of an image, in order, each by a put of its own.
pub fn list_image<N: Sink>(alloc: Global, image: &Image, notes: &mut N) -> Put
    ensures { Noted result (listing image.now)
        (N.text notes.old) (N.text notes.new) (N.faults notes.old) (N.faults notes.new) }
{
    let mut put = Put::Ok;
    for k in 0..image.statements() {
        put = note_made(notes, put, listed_line(alloc, image, k));
    }
    put
}
