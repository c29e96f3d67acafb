// Factors and terms.
ghost use Rattle.sil_operands.specs.Limits.{card_limits};
ghost use Rattle.sil_operands.specs.OperandReading.{Answers, each, parts_at, factor_in, term_in};

use crate::cutting::cut;
use crate::expr::{Factor, Term};
use crate::operand::OperandFault;
use sil_base::{Items, Record, digits_value, is_name, is_number};
use std::alloc::Global;

/// The factor that bytes spell.
fn read_factor(alloc: Global, bytes: &[u8]) -> Result<Factor, OperandFault>
    ensures { Answers result (factor_in card_limits bytes.now) }
{
    if is_name(bytes) {
        return Ok(Factor::Name(Record::of(alloc, bytes)?));
    }
    if !is_number(bytes) {
        return Err(OperandFault::Bad);
    }
    match digits_value(bytes) {
        Some(value) => Ok(Factor::Number(value)),
        None => Err(OperandFault::Bad),
    }
}

/// The factors between stars.
fn read_factors(alloc: Global, text: &[u8]) -> Result<Items<Factor>, OperandFault>
    ensures { Answers result (each (factor_in card_limits) (parts_at 42 text.now)) }
{
    let mut factors = Vec::new(alloc);
    let mut rest = text;
    while let Some((part, more)) = cut(rest, b'*') {
        factors.push(read_factor(alloc, part)?)?;
        rest = more;
    }
    factors.push(read_factor(alloc, rest)?)?;
    Ok(Items::of(factors))
}

/// The term with this sign and this text.
pub(crate) fn read_term(alloc: Global, minus: bool, text: &[u8]) -> Result<Term, OperandFault>
    ensures { Answers result (term_in card_limits (minus, text.now)) }
{
    let factors = read_factors(alloc, text)?;
    Ok(Term { minus, factors })
}
