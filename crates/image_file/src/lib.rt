// Image files: their type, and their bytes.
#![tactic(auto)]

mod body;
mod counts;
mod cursor;
mod entries;
mod head;
mod image;
mod laws;
mod numbers;
mod reading;
mod rules;
mod stop;
mod table_entries;
mod version;
mod writing;

pub use image::Image;
pub use laws::{law_of_first_parts, law_of_spellings};
pub use reading::load_image;
pub use stop::ImageStop;
pub use table_entries::table_entry;
pub use writing::write_image;
