// From programs to the bytes of installed images.
#![tactic(auto)]

mod installing;
mod law;
mod parts;
mod tables;
mod words;

pub use installing::install;
pub use law::{law_of_built_programs, law_of_installed_images};
