// The values that a format takes, and what is laid out of them.
use sil_base::{Items, Record};

/// A value: a number, or a character.
#[derive(Debug, Clone, Copy, PartialEq, Eq)]
pub enum Value {
    Number(i64),
    Char(u8),
}

/// What a format and values give: records of at most 4,096 bytes each; `Real` where a value meets
/// an F item; `Unfit` where a value meets an item of another kind or no item, or a record is too
/// long. What is met first counts.
#[derive(Debug, Drop)]
pub enum Laid {
    Records(Items<Record>),
    Real,
    Unfit,
}
