// What the lines of a tables file say.
ghost use Rattle.std.specs.Prelude.{◌≡◌, codes, option_map};
ghost use Rattle.sil_base.specs.Names.{texts_of};
ghost use Rattle.sil_operands.specs.OperandReading.{Answers};
ghost use Rattle.syntax_tables.specs.Sayings.{name_in, for_in, said_by, said_in};

use crate::class::{Item, read_class};
use crate::cutting::{bracketed, words_of};
use crate::rule::{Rule, read_rule};
use sil_base::{Items, Record, is_name};
use sil_operands::OperandFault;
use std::alloc::Global;

/// What a line says: BEGIN and END name a table, FOR gives the rule of a class of characters, and
/// ELSE that of all others.
#[derive(Debug, Drop)]
pub enum Saying {
    Begin(Record),
    For(Items<Item>, Rule),
    Else(Rule),
    End(Record),
}

/// A line, by its number, and what it says.
#[derive(Debug, Drop)]
pub struct Said {
    pub line: u32,
    pub saying: Saying,
}

/// The name, where words are just one.
fn read_name(alloc: Global, words: &[&[u8]]) -> Result<Record, OperandFault>
    ensures { Answers result (name_in (texts_of words.now)) }
{
    match words {
        [name] if is_name(name) => Ok(Record::of(alloc, name)?),
        _ => Err(OperandFault::Bad),
    }
}

/// The FOR of a class.
fn read_for(alloc: Global, word: &[u8], words: &[&[u8]]) -> Result<Saying, OperandFault>
    ensures { Answers result (for_in word.now (texts_of words.now)) }
{
    let Some(text) = bracketed(b"FOR(", word) else {
        return Err(OperandFault::Bad);
    };
    let class = read_class(alloc, text)?;
    Ok(Saying::For(class, read_rule(alloc, words)?))
}

/// What words say.
fn read_words(alloc: Global, words: &[&[u8]]) -> Result<Saying, OperandFault>
    ensures { Answers result (said_by (texts_of words.now)) }
{
    let Some((word, words)) = words.split_first() else {
        return Err(OperandFault::Bad);
    };
    if *word == b"BEGIN".as_slice() {
        return Ok(Saying::Begin(read_name(alloc, words)?));
    }
    if *word == b"END".as_slice() {
        return Ok(Saying::End(read_name(alloc, words)?));
    }
    if *word == b"ELSE".as_slice() {
        return Ok(Saying::Else(read_rule(alloc, words)?));
    }
    read_for(alloc, word, words)
}

/// What a line says.
#[tactic(auto, unfolding(crate::specs::Sayings::said_in))]
pub(crate) fn read_saying(alloc: Global, line: &[u8]) -> Result<Saying, OperandFault>
    ensures { Answers result (said_in line.now) }
{
    let words = words_of(alloc, line)?;
    read_words(alloc, &words)
}
