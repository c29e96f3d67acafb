// Expressions and lists of them.
ghost use Rattle.std.specs.Prelude.{◌==◌, count_by, ◌≡◌};
ghost use Rattle.sil_operands.specs.Limits.{card_limits};
ghost use Rattle.sil_operands.specs.OperandReading.{Answers, each, parts_at, signed_parts, term_in, expr_in, item_in, items_in};

use crate::cutting::{cut, cut_sign};
use crate::expr::Expr;
use crate::factors::read_term;
use crate::operand::OperandFault;
use sil_base::{Items, MAX_LIST_ITEMS};
use std::alloc::Global;

/// The terms of a text, by the sign of the first.
fn read_terms(alloc: Global, minus: bool, text: &[u8]) -> Result<Expr, OperandFault>
    ensures { Answers result (each (term_in card_limits) (signed_parts minus text.now)) }
{
    let mut terms = Vec::new(alloc);
    let mut minus = minus;
    let mut rest = text;
    while let Some((part, next, more)) = cut_sign(rest) {
        terms.push(read_term(alloc, minus, part)?)?;
        minus = next;
        rest = more;
    }
    terms.push(read_term(alloc, minus, rest)?)?;
    Ok(Expr::of(terms))
}

/// The expression that bytes spell.
pub(crate) fn read_expr(alloc: Global, bytes: &[u8]) -> Result<Expr, OperandFault>
    ensures { Answers result (expr_in card_limits bytes.now) }
{
    match bytes.split_first() {
        Some((b'+', rest)) => read_terms(alloc, false, rest),
        Some((b'-', rest)) => read_terms(alloc, true, rest),
        _ => read_terms(alloc, false, bytes),
    }
}

/// The item that bytes spell.
fn read_item(alloc: Global, bytes: &[u8]) -> Result<Option<Expr>, OperandFault>
    ensures { Answers result (item_in card_limits bytes.now) }
{
    if bytes.is_empty() {
        Ok(None)
    } else {
        Ok(Some(read_expr(alloc, bytes)?))
    }
}

fn count_of_byte(bytes: &[u8], byte: u8) -> usize
    ensures { result ≡ count_by (λ c. c == byte) bytes.now }
{
    bytes.iter().filter(|c| **c == byte).count()
}

/// The items between commas.
fn read_each_item(alloc: Global, inner: &[u8]) -> Result<Items<Option<Expr>>, OperandFault>
    ensures { Answers result (each (item_in card_limits) (parts_at 44 inner.now)) }
{
    let mut items = Vec::new(alloc);
    let mut rest = inner;
    while let Some((part, more)) = cut(rest, b',') {
        items.push(read_item(alloc, part)?)?;
        rest = more;
    }
    items.push(read_item(alloc, rest)?)?;
    Ok(Items::of(items))
}

/// The items between the brackets of a list, of which there are at most so many as a list may have.
pub(crate) fn read_items(alloc: Global, inner: &[u8]) -> Result<Items<Option<Expr>>, OperandFault>
    ensures { Answers result (items_in card_limits inner.now) }
{
    if count_of_byte(inner, b',') >= MAX_LIST_ITEMS {
        return Err(OperandFault::Bad);
    }
    read_each_item(alloc, inner)
}
