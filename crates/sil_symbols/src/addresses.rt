// The cells of statements, and the addresses of labels.
ghost use Rattle.std.specs.Prelude.{◌≡◌, ◌+◌, ◌*◌, ◌≤◌, IfOk, pos};
ghost use Rattle.sil_symbols.specs.Expressions.{bounded};
ghost use Rattle.sil_symbols.specs.Addresses.{size_of, text_length, cells_of, label_address, past_part, addresses_from, spot_after, first_spot};
ghost use Rattle.sil_symbols.specs.HeldNames.{names_in, capped};

use crate::expressions::outcome_of;
use crate::labels::first_expression;
use crate::names::Names;
use crate::outcome::{Outcome, number};
use crate::part::{Part, part_of};
use crate::stmt::Stmt;
use sil_base::{FIRST_CELL, FIRST_ENTRY, MAX_CELLS};
use sil_operands::{Operand, Operands};
use std::alloc::{AllocError, Global};

/// What stands before a statement: how many cells and executable statements, and whether the last
/// of either kind was data.
#[derive(Clone, Copy, PartialEq, Eq, Debug)]
pub(crate) struct Spot {
    pub cells: u64,
    pub statements: u64,
    pub in_data: bool,
}

/// The size of an ARRAY or a BUFFER.
pub(crate) fn size_of(statement: &Stmt, names: &Names, sizes: &[Outcome]) -> Option<u64>
    ensures { result ≡ size_of (names_in names.now sizes.now) statement.now }
{
    let terms = first_expression(&statement.operands)?;
    match outcome_of(terms, names, sizes) {
        Outcome::Value(n) if n >= 0 && n as u64 <= MAX_CELLS => Some(n as u64),
        _ => None,
    }
}

/// The length of the text of a STRING or a FORMAT.
fn text_length(operands: &Operands) -> u64
    ensures { result ≡ text_length operands.now }
{
    match operands.items().first() {
        Some(Operand::Text(text)) => text.bytes().len() as u64,
        _ => 0,
    }
}

/// The cells of a statement, in descriptors of so many bytes.
fn cells_of(descr: u64, statement: &Stmt, names: &Names, sizes: &[Outcome]) -> u64
    requires { 16 ≤ descr }
    ensures { result ≡ cells_of descr (names_in names.now sizes.now) statement.now }
{
    match part_of(statement.name) {
        Part::Descriptors(n) => n,
        Part::Array => size_of(statement, names, sizes).unwrap_or(0),
        Part::Buffer => size_of(statement, names, sizes)
            .unwrap_or(0)
            .div_ceil(descr),
        Part::String => 2 + text_length(&statement.operands).div_ceil(descr),
        Part::Format => text_length(&statement.operands).div_ceil(descr),
        _ => 0,
    }
}

/// The number at so many descriptors of so many bytes after another.
fn address(first: u64, descr: u64, count: u64) -> Outcome
    ensures { result ≡ bounded (pos (first + count * descr)) }
{
    let Some(bytes) = count.checked_mul(descr) else {
        return Outcome::NoValue;
    };
    match first.checked_add(bytes) {
        Some(at) => number(at),
        None => Outcome::NoValue,
    }
}

/// The value of a label at a spot.
fn label_address(descr: u64, spot: Spot, part: Part) -> Outcome
    ensures { result ≡ label_address descr spot part }
{
    match part {
        Part::Equation | Part::Unread | Part::End => Outcome::NoValue,
        Part::Executable => address(FIRST_ENTRY, descr, spot.statements),
        Part::Here if !spot.in_data => address(FIRST_ENTRY, descr, spot.statements),
        _ => address(FIRST_CELL, descr, spot.cells),
    }
}

impl Spot {
    /// After a statement of so many cells.
    fn past(self, cells: u64, part: Part) -> Spot
        ensures { result ≡ capped (past_part self cells part) }
    {
        match part {
            Part::Equation | Part::Here | Part::Unread | Part::End => self,
            Part::Executable => Spot {
                statements: self.statements.saturating_add(1),
                in_data: false,
                ..self
            },
            _ => Spot {
                cells: self.cells.saturating_add(cells),
                in_data: true,
                ..self
            },
        }
    }
}

/// The address of each statement's label, and what stands before the end.
pub(crate) fn addresses_of(
    alloc: Global,
    descr: u64,
    statements: &[Stmt],
    names: &Names,
    sizes: &[Outcome],
) -> Result<(Vec<Outcome>, Spot), AllocError>
    requires { 16 ≤ descr }
    ensures { IfOk result (λ r. (r.0.items ≡ addresses_from descr (names_in names.now sizes.now) first_spot statements.now)
        × (r.1 ≡ capped (spot_after descr (names_in names.now sizes.now) first_spot statements.now))) }
{
    let mut spot = Spot {
        cells: 0,
        statements: 0,
        in_data: false,
    };
    let mut addresses = Vec::new(alloc);
    for statement in statements {
        let part = part_of(statement.name);
        addresses.push(label_address(descr, spot, part))?;
        spot = spot.past(cells_of(descr, statement, names, sizes), part);
    }
    Ok((addresses, spot))
}
