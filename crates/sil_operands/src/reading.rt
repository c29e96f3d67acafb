// The operands of a field.
ghost use Rattle.std.specs.Prelude.{◌≡◌, List, IfOk, IfErr, IsTrue};
ghost use Rattle.sil_operands.specs.OperandGrammar.{field_text, SpellsOperands};
ghost use Rattle.sil_operands.specs.Limits.{card_limits, are_within_limits};
ghost use Rattle.sil_operands.specs.OperandReading.{Answers, each, operand_in, operand_parts, operands_of, list_in};
ghost use Rattle.sil_operands.specs.declared.cutting.Place.TheVariants.{Outside};
ghost use Rattle.sil_operands.specs.declared.operand.Operand.{Operand};

use crate::cutting::cut_operand;
use crate::expr::Expr;
use crate::expressions::{read_expr, read_items};
use crate::operand::{Operand, OperandFault, Operands};
use crate::texts::read_text;
use sil_base::Items;
use smallvec::SmallVec;
use std::alloc::Global;

/// The list whose first bracket stands before these bytes.
fn read_list(alloc: Global, bytes: &[u8]) -> Result<Items<Option<Expr>>, OperandFault>
    ensures { Answers result (list_in card_limits bytes.now) }
{
    let Some((last, inner)) = bytes.split_last() else {
        return Err(OperandFault::Bad);
    };
    if *last != b')' {
        return Err(OperandFault::Bad);
    }
    read_items(alloc, inner)
}

/// The operand that bytes spell.
fn read_operand(alloc: Global, bytes: &[u8]) -> Result<Operand, OperandFault>
    ensures { Answers result (operand_in card_limits bytes.now) }
{
    match bytes.split_first() {
        None => Ok(Operand::Null),
        Some((b'\'', rest)) => Ok(Operand::Text(read_text(alloc, rest)?)),
        Some((b'(', rest)) => Ok(Operand::List(read_list(alloc, rest)?)),
        Some(_) => Ok(Operand::Expr(read_expr(alloc, bytes)?)),
    }
}

/// The operands between commas.
fn read_each_operand(alloc: Global, field: &[u8]) -> Result<Operands, OperandFault>
    ensures { Answers result (each (operand_in card_limits) (operand_parts Outside field.now)) }
{
    let mut operands = SmallVec::new(alloc);
    let mut rest = field;
    while let Some((part, more)) = cut_operand(rest) {
        operands.push(read_operand(alloc, part)?)?;
        rest = more;
    }
    operands.push(read_operand(alloc, rest)?)?;
    Ok(Operands::of(operands))
}

/// The bytes of a field, of which there are none where it is just a comma.
fn field_text(field: &[u8]) -> &[u8]
    ensures { result.now ≡ field_text field.now }
{
    if field == b",".as_slice() { b"" } else { field }
}

/// The operands that a field spells. A field that is empty or just a comma is one null operand. A
/// text may hold any bytes; elsewhere no blanks stand.
pub fn read_operands(alloc: Global, field: &[u8]) -> Result<Operands, OperandFault>
    ensures ok { IfOk result (λ operands. SpellsOperands field.now operands × IsTrue (are_within_limits operands)) }
    ensures bad { IfErr result (λ e. e ≡ OperandFault.Bad → (operands : List Operand)
        → SpellsOperands field.now operands → ¬ IsTrue (are_within_limits operands)) }
    ensures exact { Answers result (operands_of field.now) }
{
    read_each_operand(alloc, field_text(field))
}
