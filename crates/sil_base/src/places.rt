// The map of addresses: where the regions of a machine begin, and the numbers of its statements.

/// The address of the first code word.
pub const FIRST_WORD: u64 = 0x1_0000;

/// The address of the first cell.
pub const FIRST_CELL: u64 = 0x4000_0000;

/// The address of the first cell's kind.
pub const FIRST_KIND: u64 = 0x5000_0000;

/// The address of the first byte of tables.
pub const FIRST_TABLE: u64 = 0x6000_0000;

/// The address of the first byte of constants.
pub const FIRST_CONSTANT: u64 = 0x6800_0000;

/// The address of the first byte of scratch.
pub const FIRST_SCRATCH: u64 = 0x6C00_0000;

/// The entry of statement 0: a number that is no place in memory.
pub const FIRST_ENTRY: u64 = 0x7000_0000;
