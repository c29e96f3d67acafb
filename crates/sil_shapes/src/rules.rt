// The rules of statements.
ghost use Rattle.std.specs.Prelude.{◌≡◌};
ghost use Rattle.std.specs.List.{list_any};
ghost use Rattle.sil_shapes.specs.HeldSources.{IsResolution, measure_in};
ghost use Rattle.sil_shapes.specs.ShapeRules.{is_lost, rule_if, expression_rule, list_rule, operand_rule, least, operands_rule, statement_rule};

use crate::resolution::Resolution;
use crate::shapes::fits;
use sil_macros::{Kind, Place, shape};
use sil_operands::{Expr, Operand};
use sil_symbols::Stmt;

/// Whether an item of a list of locations is no statement's entry.
fn is_lost(source: &Resolution<'_>, item: &Option<Expr>) -> bool
    requires { IsResolution source.now }
    ensures { result ≡ is_lost (measure_in source.now) item.now }
{
    match item {
        Some(expr) => source.location_of(expr).is_none(),
        None => false,
    }
}

fn some_are_lost(source: &Resolution<'_>, items: &[Option<Expr>]) -> bool
    requires { IsResolution source.now }
    ensures { result ≡ list_any (is_lost (measure_in source.now)) items.now }
{
    items.iter().any(|item| is_lost(source, item))
}

fn rule_if(broken: bool, rule: u8) -> Option<u8>
    ensures { result ≡ rule_if broken rule }
{
    if broken { Some(rule) } else { None }
}

/// The rule that an expression in a place of this kind breaks.
fn expression_rule(source: &Resolution<'_>, kind: Kind, expr: &Expr) -> Option<u8>
    requires { IsResolution source.now }
    ensures { result ≡ expression_rule (measure_in source.now) kind expr.now }
{
    match kind {
        Kind::Goto | Kind::Required | Kind::Gotos => {
            rule_if(source.location_of(expr).is_none(), 2)
        }
        Kind::Flag => rule_if(source.flags_of(expr).is_none(), 3),
        Kind::Format => rule_if(source.format_at(expr).is_none(), 4),
        _ => None,
    }
}

/// The rule that a list in a place of this kind breaks.
fn list_rule(source: &Resolution<'_>, kind: Kind, items: &[Option<Expr>]) -> Option<u8>
    requires { IsResolution source.now }
    ensures { result ≡ list_rule (measure_in source.now) kind items.now }
{
    match kind {
        Kind::Gotos => rule_if(some_are_lost(source, items), 2),
        _ => None,
    }
}

/// The rule that an operand in a place of this kind breaks.
fn operand_rule(source: &Resolution<'_>, kind: Kind, operand: &Operand) -> Option<u8>
    requires { IsResolution source.now }
    ensures { result ≡ operand_rule (measure_in source.now) kind operand.now }
{
    match operand {
        Operand::Expr(expr) => expression_rule(source, kind, expr),
        Operand::List(items) => list_rule(source, kind, items.items()),
        Operand::Null | Operand::Text(_) => None,
    }
}

fn least(rule: Option<u8>, other: Option<u8>) -> Option<u8>
    ensures { result ≡ least rule other }
{
    match (rule, other) {
        (Some(a), Some(b)) if a <= b => rule,
        (Some(_), None) => rule,
        _ => other,
    }
}

/// The least of the rules that operands in these places break.
fn operands_rule(source: &Resolution<'_>, places: &[Place], operands: &[Operand]) -> Option<u8>
    requires { IsResolution source.now }
    ensures { result ≡ operands_rule (measure_in source.now) places.now operands.now }
{
    let (place, places) = places.split_first()?;
    let (operand, operands) = operands.split_first()?;
    least(
        operand_rule(source, place.kind, operand),
        operands_rule(source, places, operands),
    )
}

/// The least rule that a statement breaks.
pub(crate) fn statement_rule(source: &Resolution<'_>, statement: &Stmt) -> Option<u8>
    requires { IsResolution source.now }
    ensures { result ≡ statement_rule (measure_in source.now) 0 statement.now }
{
    if !fits(statement.name, &statement.operands) {
        return Some(1);
    }
    let shape = shape(statement.name);
    operands_rule(source, shape.places(), statement.operands.items())
}
