// The regions of memory.

ghost use Rattle.std.specs.Prelude.{◌≡◌, ◌≤◌, ◌^◌, length};
ghost use Rattle.rv_emulate.specs.EmulatorMemory.{holds};

/// The bytes that a region may have: its first place is a multiple of them.
pub(crate) const REGION_BYTES: u64 = 1 << 26;

/// The regions that a store may change.
#[derive(Drop)]
pub(crate) struct Regions {
    pub(crate) cells: Vec<u8>,
    pub(crate) kinds: Vec<u8>,
    pub(crate) tables: Vec<u8>,
    pub(crate) scratch: Vec<u8>,
    ghost few_cells: { length cells.items ≤ 2 ^ 26 },
    ghost few_kinds: { length kinds.items ≤ 2 ^ 26 },
    ghost few_tables: { length tables.items ≤ 2 ^ 26 },
    ghost few_scratch: { length scratch.items ≤ 2 ^ 26 },
}

/// Whether `n` bytes at an address lie in the region of these bytes, whose first place is `first`.
pub(crate) fn holds(first: u64, bytes: &[u8], n: u64, address: u64) -> bool
    ensures { result ≡ holds first bytes.now n address }
{
    let len = bytes.len() as u64;
    first <= address && address - first <= len && n <= len - (address - first)
}
