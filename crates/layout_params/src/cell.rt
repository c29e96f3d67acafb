// A cell of memory.

/// A descriptor: an address or an integer, flags, and a value.
#[derive(Clone, Copy, Default, PartialEq, Eq, Debug)]
pub struct Descr {
    pub a: i64,
    pub f: u32,
    pub v: u64,
}

/// A descriptor, or as many characters as a cell has bytes: the first DESCR bytes count, and the
/// others are 0.
#[derive(Clone, Copy, PartialEq, Eq, Debug)]
pub enum Cell {
    Descr(Descr),
    Chars([u8; 64]),
}

/// One of the three fields of a descriptor.
#[derive(Clone, Copy, PartialEq, Eq, Debug)]
pub enum Field {
    A,
    F,
    V,
}
