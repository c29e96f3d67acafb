// The macros that change syntax tables, one function each.
ghost use Rattle.std.specs.Prelude.{◌≡◌};
ghost use Rattle.string_clauses.specs.Walks.{each, left_by};
ghost use Rattle.table_clauses.specs.SyntaxClauses.{after_tables, all_plain, clertb, plain, plug_turn, plugtb};

use crate::operands::{key, table};
use crate::tables::Tables;
use sil_model::{Action, Arg, Cells, Entry, Flow, place};
use string_clauses::{first, length};

/// An action that puts nothing.
fn plain(action: Action) -> Entry
    ensures { result ≡ plain action }
{
    Entry { action, put: None }
}

/// The same for each character.
#[tactic(auto, unfolding(crate::specs::SyntaxClauses::all_plain))]
fn all_plain(action: Action) -> [Entry; 256]
    ensures { result ≡ all_plain action }
{
    [plain(action); 256]
}

/// `CLERTB T,K`: every entry of T := action K without a value.
#[tactic(auto, unfolding(crate::specs::SyntaxClauses::clertb))]
pub fn clertb(args: &[Arg], tables: &mut Tables) -> Option<Flow>
    ensures { clertb args.now tables.old ≡ after_tables result tables.new }
{
    let t = table(args, 0)?;
    let key = key(args, 1)?;
    tables.set_entries(t, all_plain(key))?;
    Some(Flow::Next)
}

/// Sets the entry of character i.
#[tactic(auto, unfolding(crate::specs::SyntaxClauses::plug_turn, sil_model::specs::Integers::wrapped_sum))]
fn plug_char(cells: &Cells, at: i64, entry: Entry, i: u64, entries: &mut [Entry; 256]) -> Option<()>
    ensures { plug_turn cells.now at entry i entries.old ≡ left_by result entries.new }
{
    let c = cells.char_at(at.wrapping_add_unsigned(i))?;
    entries[usize::from(c)] = entry;
    Some(())
}

/// Sets the entries of so many characters.
#[tactic(auto, using(string_clauses::proofs::Turns::turns))]
fn plug_chars(
    cells: &Cells,
    at: i64,
    entry: Entry,
    count: u64,
    entries: &mut [Entry; 256],
) -> Option<()>
    ensures { each (plug_turn cells.now at entry) 0 count entries.old ≡ left_by result entries.new }
{
    for i in 0..count {
        plug_char(cells, at, entry, i, entries)?;
    }
    Some(())
}

/// `PLUGTB T,K,S`: the entry in T of each character of S := action K without a value.
#[tactic(auto, unfolding(crate::specs::SyntaxClauses::plugtb))]
pub fn plugtb(args: &[Arg], cells: &Cells, tables: &mut Tables) -> Option<Flow>
    ensures { plugtb args.now cells.now tables.old ≡ after_tables result tables.new }
{
    let t = table(args, 0)?;
    let key = key(args, 1)?;
    let s = place(args, 2)?;
    let l = length(cells, s)?;
    let at = first(cells, l, s)?;
    let mut entries = tables.entries(t)?;
    plug_chars(cells, at, plain(key), l, &mut entries)?;
    tables.set_entries(t, entries)?;
    Some(Flow::Next)
}
