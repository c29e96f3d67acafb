// What a statement does whose macro walks characters, trees, patterns or blocks, or uses syntax
// tables.
ghost use Rattle.std.specs.Prelude.{◌≡◌, ◌||◌, ℕ, true};
ghost use Rattle.unit_io.specs.Tapes.{Tapes};
ghost use Rattle.string_clauses.specs.StringTable.{is_of_string};
ghost use Rattle.table_clauses.specs.SyntaxTable.{is_of_table};
ghost use Rattle.tree_clauses.specs.TreeTable.{is_of_tree};
ghost use Rattle.sil_runs.specs.Table.{clause};
ghost use Rattle.sil_machine.specs.MachineParts.{left_by, state_of};

use crate::parts::Parts;
use crate::site::Site;
use sil_macros::Macro;
use sil_model::Flow;
use string_clauses::{apdsp, date, getbal, intspc, lexcmp, rplace, spcint, trimsp, varid};
use table_clauses::{clertb, plugtb, stream};
use tree_clauses::{
    addsib, addson, cpypat, expint, insert, linkor, locapt, locapv, lvalue, maknod, movblk, top,
};

/// Whether a macro is of these groups.
pub fn is_walk(name: Macro) -> bool
    ensures { result ≡ (is_of_string name || is_of_tree name || is_of_table name) }
{
    matches!(
        name,
        Macro::Addsib
            | Macro::Addson
            | Macro::Apdsp
            | Macro::Clertb
            | Macro::Cpypat
            | Macro::Date
            | Macro::Expint
            | Macro::Getbal
            | Macro::Insert
            | Macro::Intspc
            | Macro::Lexcmp
            | Macro::Linkor
            | Macro::Locapt
            | Macro::Locapv
            | Macro::Lvalue
            | Macro::Maknod
            | Macro::Movblk
            | Macro::Plugtb
            | Macro::Rplace
            | Macro::Spcint
            | Macro::Stream
            | Macro::Top
            | Macro::Trimsp
            | Macro::Varid
    )
}

/// What a statement of one of these macros does.
#[tactic(auto, unfolding(sil_runs::specs::Table::clause, string_clauses::specs::StringTable::string_clause, tree_clauses::specs::TreeTable::tree_clause, table_clauses::specs::SyntaxTable::table_clause))]
pub fn perform_walk(name: Macro, site: &Site, parts: &mut Parts) -> Option<Flow>
    requires { (is_of_string name || is_of_tree name || is_of_table name) ≡ true }
    ensures { (k steps : ℕ) (tapes : Tapes) → clause name site.now (state_of k steps parts.old tapes) ≡ left_by result (state_of k steps parts.new tapes) }
{
    match name {
        Macro::Addsib => addsib(site.args(), &mut parts.cells),
        Macro::Addson => addson(site.args(), &mut parts.cells),
        Macro::Apdsp => apdsp(site.args(), &mut parts.cells),
        Macro::Clertb => clertb(site.args(), &mut parts.tables),
        Macro::Cpypat => cpypat(site.args(), &mut parts.cells),
        Macro::Date => date(
            site.hidden(),
            &site.params().date(),
            site.args(),
            &mut parts.cells,
        ),
        Macro::Expint => expint(site.args(), &mut parts.cells),
        Macro::Getbal => getbal(site.args(), &mut parts.cells),
        Macro::Insert => insert(site.args(), &mut parts.cells),
        Macro::Intspc => intspc(site.hidden(), site.args(), &mut parts.cells),
        Macro::Lexcmp => lexcmp(site.args(), &mut parts.cells),
        Macro::Linkor => linkor(site.args(), &mut parts.cells),
        Macro::Locapt => locapt(site.args(), &mut parts.cells),
        Macro::Locapv => locapv(site.args(), &mut parts.cells),
        Macro::Lvalue => lvalue(site.args(), &mut parts.cells),
        Macro::Maknod => maknod(site.args(), &mut parts.cells),
        Macro::Movblk => movblk(site.args(), &mut parts.cells),
        Macro::Plugtb => plugtb(site.args(), &parts.cells, &mut parts.tables),
        Macro::Rplace => rplace(site.args(), &mut parts.cells),
        Macro::Spcint => spcint(site.specials().int_code, site.args(), &mut parts.cells),
        Macro::Stream => stream(
            site.specials().stype,
            &parts.tables,
            site.args(),
            &mut parts.cells,
        ),
        Macro::Top => top(site.args(), &mut parts.cells, site.params().flags()[4]),
        Macro::Trimsp => trimsp(site.args(), &mut parts.cells),
        Macro::Varid => varid(site.params().bucket_count(), site.args(), &mut parts.cells),
        _ => None,
    }
}
