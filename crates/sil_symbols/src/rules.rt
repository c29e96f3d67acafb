// The rules that a statement breaks.
ghost use Rattle.std.specs.Prelude.{◌≡◌, ◌++◌, ◌≤◌, ◌<◌, IfOk, OnOk, is_none};
ghost use Rattle.std.specs.List.{list_any};
ghost use Rattle.sil_symbols.specs.Expressions.{some_name, outcome_of};
ghost use Rattle.sil_symbols.specs.SymbolRules.{items_in, expressions_in, expressions_at, expressions_of, is_apart, is_no_value, name_rule, is_defined_again, labels_parameter, names_no_symbol, names_nothing, is_circular_equation, lacks_size, lacks_value, value_rule};
ghost use Rattle.sil_symbols.specs.HeldNames.{terms_of, is_apart_at, parameter_in, label_in, origin_in, names_in};

use crate::addresses::size_of;
use crate::expressions::{is_circular, is_unknown, outcome_of};
use crate::labels::{equation_of, is_labelled};
use crate::names::Names;
use crate::outcome::Outcome;
use crate::part::{Part, part_of};
use crate::stmt::Stmt;
use sil_macros::{Kind, Place, shape};
use sil_operands::{Expr, Operand};
use std::alloc::{AllocError, Global};

/// What values rest on: names, the outcomes for sizes, those for all else, and whether the source
/// is past its limits.
#[derive(Clone, Copy)]
pub(crate) struct Values<'a> {
    pub names: &'a Names,
    pub sizes: &'a [Outcome],
    pub outcomes: &'a [Outcome],
    pub is_over: bool,
}

fn is_apart(kind: Kind) -> bool
    ensures { result ≡ is_apart kind }
{
    matches!(kind, Kind::Table | Kind::Key)
}

/// Whether the operand at this place is a table or a key.
fn is_apart_at(places: &[Place], i: usize) -> bool
    ensures { result ≡ is_apart_at places.now i }
{
    match places.get(i) {
        Some(place) => is_apart(place.kind),
        None => false,
    }
}

/// Appends the expressions of a list.
fn push_items<'a>(
    expressions: &mut Vec<&'a Expr>,
    items: &'a [Option<Expr>],
) -> Result<(), AllocError>
    ensures { OnOk result (terms_of expressions.new.items ≡ terms_of expressions.old.items ++ items_in items.now) }
{
    for item in items {
        if let Some(terms) = item {
            expressions.push(terms)?;
        }
    }
    Ok(())
}

/// Appends the expressions of an operand.
fn push_expressions<'a>(
    expressions: &mut Vec<&'a Expr>,
    operand: &'a Operand,
) -> Result<(), AllocError>
    ensures { OnOk result (terms_of expressions.new.items ≡ terms_of expressions.old.items ++ expressions_in operand.now) }
{
    match operand {
        Operand::Null | Operand::Text(_) => Ok(()),
        Operand::Expr(terms) => {
            expressions.push(terms)?;
            Ok(())
        }
        Operand::List(items) => push_items(expressions, items.items()),
    }
}

/// The expressions of operands but those in the place of a table or a key.
fn expressions_at<'a>(
    alloc: Global,
    places: &[Place],
    operands: &'a [Operand],
) -> Result<Vec<&'a Expr>, AllocError>
    ensures { IfOk result (λ v. terms_of v.items ≡ expressions_at places.now operands.now) }
{
    let mut expressions = Vec::new(alloc);
    for (i, operand) in operands.iter().enumerate() {
        if !is_apart_at(places, i) {
            push_expressions(&mut expressions, operand)?;
        }
    }
    Ok(expressions)
}

/// The expressions of a statement.
fn expressions_of(alloc: Global, statement: &Stmt) -> Result<Vec<&Expr>, AllocError>
    ensures { IfOk result (λ v. terms_of v.items ≡ expressions_of statement.now) }
{
    if matches!(part_of(statement.name), Part::Unread | Part::End) {
        return Ok(Vec::new(alloc));
    }
    expressions_at(
        alloc,
        shape(statement.name).places(),
        statement.operands.items(),
    )
}

/// Whether an expression has a name that is no symbol.
fn some_unknown(expressions: &[&Expr], names: &Names) -> bool
    ensures { result ≡ list_any (some_name (λ name. is_none (origin_in names.now name))) (terms_of expressions.now) }
{
    for terms in expressions {
        if is_unknown(terms, names) {
            return true;
        }
    }
    false
}

fn names_no_symbol(alloc: Global, statement: &Stmt, names: &Names) -> Result<bool, AllocError>
    ensures { IfOk result (λ b. b ≡ names_no_symbol (parameter_in names.now) (label_in names.now) statement.now) }
{
    let expressions = expressions_of(alloc, statement)?;
    Ok(some_unknown(&expressions, names))
}

/// Whether the label was defined by an earlier statement than that at this place.
fn is_defined_again(statement: &Stmt, place: u32, names: &Names) -> bool
    ensures { result ≡ is_defined_again (label_in names.now) place statement.now }
{
    is_labelled(statement) && names.label(statement.label.bytes()) != Some(place)
}

fn labels_parameter(statement: &Stmt, names: &Names) -> bool
    ensures { result ≡ labels_parameter (parameter_in names.now) statement.now }
{
    is_labelled(statement) && names.parameter(statement.label.bytes()).is_some()
}

fn names_nothing(statement: &Stmt) -> bool
    ensures { result ≡ names_nothing statement.now }
{
    matches!(part_of(statement.name), Part::Equation) && statement.label.bytes().is_empty()
}

/// The least of the rules N that the statement at this place breaks.
pub(crate) fn name_rule(
    alloc: Global,
    statement: &Stmt,
    place: u32,
    names: &Names,
) -> Result<Option<u8>, AllocError>
    ensures { IfOk result (λ r. r ≡ name_rule (parameter_in names.now) (label_in names.now) place statement.now) }
{
    if is_defined_again(statement, place, names) {
        return Ok(Some(1));
    }
    if labels_parameter(statement, names) {
        return Ok(Some(2));
    }
    if names_no_symbol(alloc, statement, names)? {
        return Ok(Some(3));
    }
    if names_nothing(statement) {
        return Ok(Some(4));
    }
    Ok(None)
}

fn is_circular_equation(statement: &Stmt, names: &Names, outcomes: &[Outcome]) -> bool
    ensures { result ≡ is_circular_equation (names_in names.now outcomes.now) statement.now }
{
    match equation_of(statement) {
        Some(terms) => is_circular(terms, names, outcomes),
        None => false,
    }
}

fn lacks_size(statement: &Stmt, names: &Names, sizes: &[Outcome]) -> bool
    ensures { result ≡ lacks_size (names_in names.now sizes.now) statement.now }
{
    matches!(part_of(statement.name), Part::Array | Part::Buffer)
        && size_of(statement, names, sizes).is_none()
}

/// Whether an expression has no value by a cause that is no circle.
fn some_valueless(expressions: &[&Expr], names: &Names, outcomes: &[Outcome]) -> bool
    ensures { result ≡ list_any (λ terms. is_no_value (outcome_of (names_in names.now outcomes.now) terms)) (terms_of expressions.now) }
{
    for terms in expressions {
        if outcome_of(terms, names, outcomes).is_no_value() {
            return true;
        }
    }
    false
}

fn lacks_value(
    alloc: Global,
    statement: &Stmt,
    names: &Names,
    outcomes: &[Outcome],
) -> Result<bool, AllocError>
    ensures { IfOk result (λ b. b ≡ lacks_value (names_in names.now outcomes.now) statement.now) }
{
    let expressions = expressions_of(alloc, statement)?;
    Ok(some_valueless(&expressions, names, outcomes))
}

/// The least of the rules V that a statement breaks.
pub(crate) fn value_rule(
    alloc: Global,
    statement: &Stmt,
    values: &Values<'_>,
) -> Result<Option<u8>, AllocError>
    ensures { IfOk result (λ r. r ≡ value_rule (names_in values.now.names.now values.now.sizes.now)
        (names_in values.now.names.now values.now.outcomes.now) values.now.is_over 0 statement.now) }
{
    if is_circular_equation(statement, values.names, values.outcomes) {
        return Ok(Some(1));
    }
    if lacks_size(statement, values.names, values.sizes) {
        return Ok(Some(2));
    }
    if lacks_value(alloc, statement, values.names, values.outcomes)? {
        return Ok(Some(3));
    }
    if matches!(part_of(statement.name), Part::End) && values.is_over {
        return Ok(Some(4));
    }
    Ok(None)
}
