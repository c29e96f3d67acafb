// The macros that change syntax tables, one function each.
ghost use Rattle.std.specs.Prelude.{◌+◌, ◌<◌, ◌^◌, ◌∷◌, [], OnOk, false, length};
ghost use Rattle.sil_macros.specs.declared.names.Macro.TheVariants.{Clertb, Plugtb};
ghost use Rattle.sil_model.specs.declared.program.Arg.TheVariants.{Key, Place, Table};
ghost use Rattle.sil_micro.specs.Expands.{Expands};
ghost use Rattle.table_clauses.specs.SyntaxTable.{table_clause, table_visits};

use crate::words::{action_number, first_word, past_words};
use sil_micro::{Code, op};
use sil_model::{Action, Specials};
use std::alloc::AllocError;

/// `CLERTB T,K`: every entry of T := action K without a value.
pub fn clertb(
    code: &mut Code,
    k: u32,
    specials: &Specials,
    t: u16,
    key: Action,
) -> Result<(), AllocError>
    requires statement { k < length code.old.entries }
    requires room { length code.old.ops + 1500 < 2 ^ 32 }
    ensures { OnOk result (Expands code.old code.new k specials.now (Table t ∷ Key key ∷ []) (table_clause Clertb) (table_visits Clertb) false) }
{
    let _ = specials;
    let first = first_word(t);
    let past = past_words(t);
    let action = action_number(key);
    code.begin_statement(k);
    code.append(&[
        op!(begin k),
        op!(number 4, 0),
        op!(number 11, 1),
        op!(number 10, first),
        op!(number 8, past),
        op!(number 9, action),
        op!(jump_if Eq 10, 8, Op(12)),
        op!(Add 12, 10, 11),
        op!(store_word Tables 12, 4),
        op!(store_word Tables 10, 9),
        op!(Add 10, 12, 11),
        op!(jump Op(6)),
    ])?;
    Ok(())
}

/// `PLUGTB T,K,S`: the entry in T of each character of S := action K without a value.
pub fn plugtb(
    code: &mut Code,
    k: u32,
    specials: &Specials,
    t: u16,
    key: Action,
    s: i64,
) -> Result<(), AllocError>
    requires statement { k < length code.old.entries }
    requires room { length code.old.ops + 1500 < 2 ^ 32 }
    ensures { OnOk result (Expands code.old code.new k specials.now (Table t ∷ Key key ∷ Place s ∷ []) (table_clause Plugtb) (table_visits Plugtb) false) }
{
    let _ = specials;
    let first = first_word(t);
    let action = action_number(key);
    code.begin_statement(k);
    code.append(&[
        op!(begin k),
        op!(number 4, 0),
        op!(fixed 5, Descr),
        op!(number 11, 1),
        op!(number 1, s),
        op!(Add 6, 1, 5),
        op!(load V 7, 6),
        op!(jump_if Eq 7, 4, Op(24)),
        op!(load A 2, 1),
        op!(load A 3, 6),
        op!(Add 2, 2, 3),
        op!(number 9, first),
        op!(number 8, action),
        op!(number 10, 0),
        op!(jump_if Eq 10, 7, Op(24)),
        op!(Add 12, 2, 10),
        op!(load_char 12, 12),
        op!(Add 12, 12, 12),
        op!(Add 12, 12, 9),
        op!(Add 13, 12, 11),
        op!(store_word Tables 13, 4),
        op!(store_word Tables 12, 8),
        op!(Add 10, 10, 11),
        op!(jump Op(14)),
    ])?;
    Ok(())
}
