// Classes of characters.
ghost use Rattle.std.specs.Prelude.{◌≡◌, ◌==◌, position, option_map};
ghost use Rattle.sil_operands.specs.OperandReading.{Answers, each};
ghost use Rattle.syntax_tables.specs.TableTexts.{items_of};
ghost use Rattle.syntax_tables.specs.Sayings.{one_text, text_in, code_in, range_of, codes_in, item_in, class_in, item_has, class_has};

use crate::cutting::{Separator, cut_open};
use sil_base::{Items, Record, digits_value, index_of_byte, is_number};
use sil_operands::{Operand, OperandFault, read_operands};
use std::alloc::Global;

/// An item of a class: the characters of a text, or codes from the first to the last.
#[derive(Debug, Drop)]
pub enum Item {
    Text(Record),
    Codes(u8, u8),
}

/// The text, where operands are just one.
fn one_text(operands: &[Operand]) -> Option<&[u8]>
    ensures { option_map (λ text. text.now) result ≡ one_text operands.now }
{
    match operands {
        [Operand::Text(text)] => Some(text.bytes()),
        _ => None,
    }
}

/// The text that a field spells.
#[tactic(auto, unfolding(crate::specs::Sayings::text_in))]
fn read_text(alloc: Global, field: &[u8]) -> Result<Record, OperandFault>
    ensures { Answers result (text_in field.now) }
{
    let operands = read_operands(alloc, field)?;
    match one_text(operands.items()) {
        Some(text) => Ok(Record::of(alloc, text)?),
        None => Err(OperandFault::Bad),
    }
}

/// The code that digits stand for, where they are digits.
fn code_in(digits: &[u8]) -> Option<u8>
    ensures { result ≡ code_in digits.now }
{
    if !is_number(digits) {
        return None;
    }
    let value = digits_value(digits)?;
    if value <= 255 {
        Some(value as u8)
    } else {
        None
    }
}

fn range_of(first: Option<u8>, last: Option<u8>) -> Result<Item, OperandFault>
    ensures { Answers result (range_of first last) }
{
    match (first, last) {
        (Some(first), Some(last)) if first <= last => Ok(Item::Codes(first, last)),
        _ => Err(OperandFault::Bad),
    }
}

/// The codes that a code or a range stands for.
fn read_codes(text: &[u8]) -> Result<Item, OperandFault>
    ensures { Answers result (codes_in (position (λ b. b == 45) text.now) text.now) }
{
    match index_of_byte(text, b'-') {
        Some(at) => range_of(code_in(&text[..at]), code_in(&text[at + 1..])),
        None => range_of(code_in(text), code_in(text)),
    }
}

/// The item that bytes spell.
fn read_item(alloc: Global, bytes: &[u8]) -> Result<Item, OperandFault>
    ensures { Answers result (item_in bytes.now) }
{
    match bytes.split_first() {
        None => Err(OperandFault::Bad),
        Some((b'\'', _)) => Ok(Item::Text(read_text(alloc, bytes)?)),
        Some(_) => read_codes(bytes),
    }
}

/// The items of a class.
#[tactic(auto, unfolding(crate::specs::Sayings::class_in))]
pub(crate) fn read_class(alloc: Global, text: &[u8]) -> Result<Items<Item>, OperandFault>
    ensures { Answers result (class_in text.now) }
{
    let mut items = Vec::new(alloc);
    let mut rest = text;
    while let Some((part, more)) = cut_open(rest, Separator::Comma) {
        items.push(read_item(alloc, part)?)?;
        rest = more;
    }
    items.push(read_item(alloc, rest)?)?;
    Ok(Items::of(items))
}
