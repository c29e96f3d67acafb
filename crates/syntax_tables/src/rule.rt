// Rules of tables: what to put, and the action.
ghost use Rattle.std.specs.Prelude.{◌≡◌, ◌∷◌, codes, option_map};
ghost use Rattle.sil_base.specs.Names.{texts_of};
ghost use Rattle.sil_operands.specs.OperandReading.{Answers};
ghost use Rattle.syntax_tables.specs.Sayings.{one_expression, expression_in, goto_in, move_in, put_in, rule_in};

use crate::cutting::bracketed;
use sil_base::{Record, is_name};
use sil_operands::{Expr, Operand, OperandFault, Operands, read_operands};
use std::alloc::Global;

/// An action, where the next table stands by its name.
#[derive(Debug, Drop)]
pub enum Move {
    Contin,
    Goto(Record),
    Stop,
    Stopsh,
    Error,
}

/// What is done at a character: the expression whose value is put, if there is one, and the action.
#[derive(Debug, Drop)]
pub struct Rule {
    pub put: Option<Expr>,
    pub action: Move,
}

/// The expression, where operands are just one.
fn one_expression(operands: Operands) -> Option<Expr>
    ensures { result ≡ one_expression operands }
{
    let mut items = operands.into_items();
    let last = items.pop()?;
    if !items.is_empty() {
        return None;
    }
    match last {
        Operand::Expr(expr) => Some(expr),
        Operand::Null | Operand::List(_) | Operand::Text(_) => None,
    }
}

/// The expression that a field spells.
#[tactic(auto, unfolding(crate::specs::Sayings::expression_in))]
fn read_expression(alloc: Global, field: &[u8]) -> Result<Expr, OperandFault>
    ensures { Answers result (expression_in field.now) }
{
    let operands = read_operands(alloc, field)?;
    match one_expression(operands) {
        Some(expr) => Ok(expr),
        None => Err(OperandFault::Bad),
    }
}

fn read_goto(alloc: Global, name: &[u8]) -> Result<Move, OperandFault>
    ensures { Answers result (goto_in name.now) }
{
    if is_name(name) {
        Ok(Move::Goto(Record::of(alloc, name)?))
    } else {
        Err(OperandFault::Bad)
    }
}

/// The action that a word names.
#[tactic(auto, unfolding(crate::specs::Sayings::move_in))]
fn read_move(alloc: Global, word: &[u8]) -> Result<Move, OperandFault>
    ensures { Answers result (move_in word.now) }
{
    if word == b"CONTIN".as_slice() {
        return Ok(Move::Contin);
    }
    if word == b"STOP".as_slice() {
        return Ok(Move::Stop);
    }
    if word == b"STOPSH".as_slice() {
        return Ok(Move::Stopsh);
    }
    if word == b"ERROR".as_slice() {
        return Ok(Move::Error);
    }
    match bracketed(b"GOTO(", word) {
        Some(name) => read_goto(alloc, name),
        None => Err(OperandFault::Bad),
    }
}

/// The expression of a PUT.
#[tactic(auto, unfolding(crate::specs::Sayings::put_in))]
fn read_put(alloc: Global, word: &[u8]) -> Result<Expr, OperandFault>
    ensures { Answers result (put_in word.now) }
{
    match bracketed(b"PUT(", word) {
        Some(field) => read_expression(alloc, field),
        None => Err(OperandFault::Bad),
    }
}

/// The rule that words give.
#[tactic(auto, unfolding(crate::specs::Sayings::rule_in))]
pub(crate) fn read_rule(alloc: Global, words: &[&[u8]]) -> Result<Rule, OperandFault>
    ensures { Answers result (rule_in (texts_of words.now)) }
{
    match words {
        [action] => Ok(Rule {
            put: None,
            action: read_move(alloc, action)?,
        }),
        [put, action] => Ok(Rule {
            put: Some(read_put(alloc, put)?),
            action: read_move(alloc, action)?,
        }),
        _ => Err(OperandFault::Bad),
    }
}
