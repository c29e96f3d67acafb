// Programs: statements with their operands resolved, and the data that they start with.

use crate::table::{Action, Table};
use layout_params::Cell;
use sil_base::{Items, Record};
use sil_macros::Macro;

/// An operand. A location that is none is the next statement; `Absent` is any other null operand.
#[derive(Drop)]
pub enum Arg {
    Absent,
    Place(i64),
    Number(i64),
    Flag(u32),
    Goto(Option<u32>),
    Table(u16),
    Key(Action),
    Format(Record),
    Places(Items<i64>),
    Gotos(Items<Option<u32>>),
}

/// A statement: the number of its card, its macro, and an operand for each place of the macro's
/// shape.
#[derive(Drop)]
pub struct Statement {
    pub card: u32,
    pub name: Macro,
    pub args: Items<Arg>,
}

/// The special symbols that macros use: the statements OVER and INTR10, the places STYPE, FRSGPT,
/// HDSGPT and TLSGP1, and the value of I.
#[derive(Clone, Copy, PartialEq, Eq, Debug)]
pub struct Specials {
    pub over: Option<u32>,
    pub under: Option<u32>,
    pub stype: Option<i64>,
    pub first: Option<i64>,
    pub head: Option<i64>,
    pub tail: Option<i64>,
    pub int_code: Option<u64>,
}

/// A program: its executable statements, its static cells, its syntax tables, the texts of its
/// formats in order, and its special symbols.
#[derive(Drop)]
pub struct Program {
    pub statements: Items<Statement>,
    pub cells: Items<Cell>,
    pub tables: Items<Table>,
    pub formats: Items<Record>,
    pub specials: Specials,
}

/// Where a statement that is defined goes: on, to a statement, or to an end.
#[derive(Clone, Copy, PartialEq, Eq, Debug)]
pub enum Flow {
    Next,
    To(u32),
    Exit(u8),
    Trap,
}
