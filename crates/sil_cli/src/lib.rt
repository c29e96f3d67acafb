// The commands, and what they answer.
#![tactic(auto)]

mod came;
mod command;
mod demo;
mod files;
mod main_call;
mod on_image;

pub use command_report::{Ending, Stop, after_finishes};
pub use files::MAX_IMAGE_BYTES;
pub use main_call::{Status, sil_main};
