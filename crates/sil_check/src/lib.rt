// From the files of a source to its program.
#![tactic(auto)]

mod checked;
mod checking;
mod inputs;
mod names;
mod stop;

pub use checked::Checked;
pub use checking::check;
pub use names::SourceNames;
pub use sil_shapes::fits;
pub use stop::CheckStop;
