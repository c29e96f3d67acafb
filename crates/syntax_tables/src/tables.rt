// Tables, an entry for each character.
ghost use Rattle.std.specs.Prelude.{◌≡◌, ◌==◌, length, All, IfOk, option_map, option_and_then};
ghost use Rattle.std.specs.List.{list_any};
ghost use Rattle.sil_model.specs.WellFormed.{GoesWithin, IsEntry, IsTable};
ghost use Rattle.sil_symbols.specs.Resolved.{expression_value};
ghost use Rattle.syntax_tables.specs.TableFiles.{names_in};
ghost use Rattle.syntax_tables.specs.Sayings.{item_has, class_has};
ghost use Rattle.syntax_tables.specs.Tables.{rule_at, goto_of, action_of, entry_of, entry_at, table_of, tables_of};

use crate::class::Item;
use crate::rule::{Move, Rule};
use crate::saying::{Said, Saying};
use crate::written::Written;
use sil_model::{Action, Entry, Table};
use sil_operands::Expr;
use sil_symbols::Symbols;
use std::alloc::{AllocError, Global};

fn text_has(text: &[u8], c: u8) -> bool
    ensures { result ≡ list_any (λ b. b == c) text.now }
{
    text.iter().any(|b| *b == c)
}

fn item_has(item: &Item, c: u8) -> bool
    ensures { result ≡ item_has c item.now }
{
    match item {
        Item::Text(text) => text_has(text.bytes(), c),
        Item::Codes(first, last) => *first <= c && c <= *last,
    }
}

/// Whether a character is in a class.
fn class_has(items: &[Item], c: u8) -> bool
    ensures { result ≡ class_has c items.now }
{
    items.iter().any(|item| item_has(item, c))
}

/// The rule of a character, by the lines after the BEGIN of its table.
fn rule_at(lines: &[Said], c: u8) -> Option<&Rule>
    ensures { option_map (λ rule. rule.now) result ≡ rule_at c lines.now }
{
    for said in lines {
        match &said.saying {
            Saying::For(class, rule) => {
                if class_has(class.items(), c) {
                    return Some(rule);
                }
            }
            Saying::Else(rule) => return Some(rule),
            Saying::Begin(_) | Saying::End(_) => return None,
        }
    }
    None
}

fn goto_of(next: Option<u16>) -> Action
    ensures { result ≡ goto_of next }
{
    match next {
        Some(next) => Action::Goto(next),
        None => Action::Error,
    }
}

fn action_of(written: &Written, action: &Move) -> Action
    ensures action { result ≡ action_of (names_in written.now) action.now }
    ensures within { GoesWithin (length (names_in written.now)) result }
{
    match action {
        Move::Contin => Action::Contin,
        Move::Goto(name) => goto_of(written.find(name.bytes())),
        Move::Stop => Action::Stop,
        Move::Stopsh => Action::Stopsh,
        Move::Error => Action::Error,
    }
}

/// The value that a rule puts.
fn put_of(symbols: &Symbols, put: &Option<Expr>) -> Option<i64>
    ensures { result ≡ option_and_then (expression_value symbols.now) put.now }
{
    match put {
        Some(expr) => symbols.value(expr),
        None => None,
    }
}

fn entry_of(symbols: &Symbols, written: &Written, rule: Option<&Rule>) -> Entry
    ensures entry { result ≡ entry_of (expression_value symbols.now) (names_in written.now) (option_map (λ r. r.now) rule.entry) }
    ensures good { IsEntry (length (names_in written.now)) result }
{
    match rule {
        Some(rule) => Entry {
            action: action_of(written, &rule.action),
            put: put_of(symbols, &rule.put),
        },
        None => Entry {
            action: Action::Error,
            put: None,
        },
    }
}

/// The table whose BEGIN stands before these lines.
#[tactic(auto, unfolding(crate::specs::Tables::table_of))]
fn table_of(symbols: &Symbols, written: &Written, lines: &[Said]) -> Table
    ensures table { result ≡ table_of (expression_value symbols.now) (names_in written.now) lines.now }
    ensures good { IsTable (length (names_in written.now)) result }
{
    let mut entries = [Entry {
        action: Action::Error,
        put: None,
    }; 256];
    for code in 0..256 {
        entries[code] = entry_of(symbols, written, rule_at(lines, code as u8));
    }
    Table { entries }
}

/// The tables of lines, in order.
#[tactic(auto, unfolding(crate::specs::Tables::tables_of))]
pub(crate) fn tables_of(
    alloc: Global,
    symbols: &Symbols,
    written: &Written,
) -> Result<Vec<Table>, AllocError>
    ensures tables { IfOk result (λ v. v.items ≡ tables_of (expression_value symbols.now) written.now) }
    ensures good { IfOk result (λ v. All (IsTable (length (names_in written.now))) v.items) }
{
    let lines = written.lines();
    let mut tables = Vec::new(alloc);
    for (i, said) in lines.iter().enumerate() {
        if let Saying::Begin(_) = &said.saying {
            tables.push(table_of(symbols, written, &lines[i + 1..]))?;
        }
    }
    Ok(tables)
}
