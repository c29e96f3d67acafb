// The expansion of a statement whose macro is one on trees.
ghost use Rattle.std.specs.Prelude.{◌≡◌, ◌*◌, ◌<◌, ◌≤◌, OnOk, IsTrue, length};
ghost use Rattle.sil_macros.specs.MacroRows.{row};
ghost use Rattle.sil_model.specs.Fits.{fit};
ghost use Rattle.sil_model.specs.Prints.{writes_records};
ghost use Rattle.sil_micro.specs.Expands.{Expands};
ghost use Rattle.sil_micro.specs.Pieces.{weights};
ghost use Rattle.tree_clauses.specs.TreeTable.{tree_clause, tree_visits};
ghost use Rattle.exp_trees.specs.Group.{is_tree};

use crate::nodes::{addsib, addson, insert, maknod};
use crate::operands::{node_descrs, two_descrs};
use sil_base::MAX_STATEMENTS;
use sil_macros::Macro;
use sil_micro::{Code, MAX_PIECE_WEIGHT, has_room};
use sil_model::{Specials, Statement};
use std::alloc::{AllocError, Global};

/// Whether a macro is one on trees.
pub fn is_tree(name: Macro) -> bool
    ensures { result ≡ is_tree name }
{
    matches!(
        name,
        Macro::Addsib | Macro::Addson | Macro::Insert | Macro::Maknod
    )
}

/// Expands statement number `at`. After an error the code may have a part of the statement's
/// operations.
#[tactic(auto, unfolding(tree_clauses::specs::TreeTable::tree_clause))]
pub fn expand_tree(
    alloc: Global,
    statement: &Statement,
    at: u32,
    specials: &Specials,
    code: &mut Code,
) -> Result<(), AllocError>
    requires group { IsTrue (is_tree statement.now.name) }
    requires fits { IsTrue (fit (row statement.now.name).places statement.now.args) }
    requires number { at < length code.old.entries }
    requires few { length code.old.entries ≤ MAX_STATEMENTS }
    requires light { weights code.old.ops ≤ MAX_PIECE_WEIGHT * at }
    ensures { OnOk result (Expands code.old code.new at specials.now statement.now.args (tree_clause statement.now.name) (tree_visits statement.now.name) (writes_records statement.now.name)) }
{
    let _ = alloc;
    has_room(code, at);
    let args = statement.args.items();
    match statement.name {
        Macro::Addsib => {
            let (d1, d2) = two_descrs(args);
            addsib(code, at, specials, d1, d2)
        }
        Macro::Addson => {
            let (d1, d2) = two_descrs(args);
            addson(code, at, specials, d1, d2)
        }
        Macro::Insert => {
            let (d1, d2) = two_descrs(args);
            insert(code, at, specials, d1, d2)
        }
        Macro::Maknod => {
            let (d1, d2, d3, d4, d5, d6) = node_descrs(args);
            maknod(code, at, specials, d1, d2, d3, d4, d5, d6)
        }
        _ => unreachable!(),
    }
}
