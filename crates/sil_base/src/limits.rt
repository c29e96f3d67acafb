// The limits of sources, programs, images and runs.

/// The bytes of a source, a copied file, a tables file or a parameter file, and of all cards.
pub const MAX_FILE_BYTES: u64 = 2_097_152;

/// The cards of a source, with those that are copied.
pub const MAX_CARDS: u32 = 40_000;

/// The items of an operand that is a list.
pub const MAX_LIST_ITEMS: usize = 40;

/// The executable statements of a program.
pub const MAX_STATEMENTS: u64 = 16_384;

/// The cells in all, and the items of an ARRAY or a BUFFER.
pub const MAX_CELLS: u64 = 1_048_576;

/// The syntax tables.
pub const MAX_TABLES: usize = 256;

/// The bytes of a syntax table.
pub const TABLE_BYTES: usize = 4_096;

/// The steps of a run.
pub const MAX_STEPS: u64 = 1 << 40;

/// The code words of an image.
pub const MAX_WORDS: usize = 201_310_208;

/// The bytes of constants of an image.
pub const MAX_CONSTANT_BYTES: usize = 67_108_864;

/// The bytes of scratch.
pub const SCRATCH_BYTES: usize = 65_536;

/// The characters that a call on a unit writes.
pub const MAX_VALUE_CHARACTERS: u64 = 65_536;

/// The bytes of a format text.
pub const MAX_FORMAT_BYTES: u64 = 256;

/// The instructions that a statement may take besides its visits, and the start and the end of a run.
pub const STATEMENT_INSTRUCTIONS: u64 = 2_000;

/// The instructions that a statement may take for each visit.
pub const VISIT_INSTRUCTIONS: u64 = 400;
