//! The six fields of a word, as format R has them.

/// The fields from the lowest bit on, of 7, 5, 3, 5, 5 and 7 bits. Where a format has no such field, the
/// bits that stand in its place.
#[derive(Clone, Copy)]
pub struct Parts {
    pub opcode: u8,
    pub rd: u8,
    pub funct3: u8,
    pub rs1: u8,
    pub rs2: u8,
    pub funct7: u8,
}
