// What is done with the bytes of an image file: they are read, run, traced and listed.
#![tactic(auto)]

mod lines;
mod listing;
mod running;
mod tracing;

pub use listing::list_image;
pub use running::{read_image, run_image};
pub use tracing::{Traced, trace_image};
