// What changes as instructions run.

use crate::storage::Storage;

/// A hardware thread: the place of the next instruction, and what instructions read and write.
#[derive(Drop)]
pub(crate) struct Hart {
    pub(crate) pc: u64,
    pub(crate) storage: Storage,
}
