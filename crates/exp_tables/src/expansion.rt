// The expansion of a statement whose macro is on syntax tables.
ghost use Rattle.std.specs.Prelude.{◌≡◌, ◌*◌, ◌<◌, ◌≤◌, ◌^◌, All, OnOk, IsTrue, length};
ghost use Rattle.sil_macros.specs.MacroRows.{row};
ghost use Rattle.table_clauses.specs.SyntaxTable.{table_clause, table_visits};
ghost use Rattle.sil_model.specs.Fits.{fit};
ghost use Rattle.sil_model.specs.Prints.{writes_records};
ghost use Rattle.sil_micro.specs.Expands.{Expands};
ghost use Rattle.sil_micro.specs.Pieces.{weights};
ghost use Rattle.exp_common.specs.Locations.{LocatesWithin};
ghost use Rattle.exp_tables.specs.Group.{is_table};

use crate::changes::{clertb, plugtb};
use crate::operands::{specs_table_walk, table_key, table_key_spec};
use crate::streams::stream;
use sil_base::MAX_STATEMENTS;
use sil_macros::Macro;
use sil_micro::{Code, MAX_PIECE_WEIGHT, has_room};
use sil_model::{Specials, Statement};
use std::alloc::{AllocError, Global};

/// Whether a macro is on syntax tables and is expanded so far.
pub fn is_table(name: Macro) -> bool
    ensures { result ≡ is_table name }
{
    matches!(name, Macro::Clertb | Macro::Plugtb | Macro::Stream)
}

/// Expands statement number `at`. After an error the code may have a part of the statement's
/// operations.
pub fn expand_table(
    alloc: Global,
    statement: &Statement,
    at: u32,
    specials: &Specials,
    code: &mut Code,
) -> Result<(), AllocError>
    requires group { IsTrue (is_table statement.now.name) }
    requires fits { IsTrue (fit (row statement.now.name).places statement.now.args) }
    requires locations { All (LocatesWithin (length code.old.entries)) statement.now.args }
    requires number { at < length code.old.entries }
    requires few { length code.old.entries ≤ MAX_STATEMENTS }
    requires light { weights code.old.ops ≤ MAX_PIECE_WEIGHT * at }
    ensures { OnOk result (Expands code.old code.new at specials.now statement.now.args (table_clause statement.now.name) (table_visits statement.now.name) (writes_records statement.now.name)) }
{
    let _ = alloc;
    has_room(code, at);
    let args = statement.args.items();
    match statement.name {
        Macro::Clertb => {
            let (t, key) = table_key(args);
            clertb(code, at, specials, t, key)
        }
        Macro::Plugtb => {
            let (t, key, s) = table_key_spec(args);
            plugtb(code, at, specials, t, key, s)
        }
        Macro::Stream => {
            let (s1, s2, t, to) = specs_table_walk(args);
            stream(code, at, specials, s1, s2, t, to)
        }
        _ => unreachable!(),
    }
}
