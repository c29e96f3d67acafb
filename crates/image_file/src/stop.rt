// Why bytes are no image.

use thiserror::Error;

/// The first part of the file that differs or is cut short, or want of memory. The parts: 1 the
/// first eight bytes, 2 the version, 3 the parameters and the date, 4 the counts, 5 the limits on
/// the counts, 6 the statements, 7 the code words, 8 the constants, 9 the static cells, 10 their
/// kinds, 11 the tables, 12 bytes after them.
#[derive(Clone, Copy, PartialEq, Eq, Debug, Error)]
pub enum ImageStop {
    #[error("part {0} of the image differs or is cut short")]
    Part(u8),
    #[error("out of memory")]
    Memory,
}
