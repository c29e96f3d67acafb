// From the cards of a source to its program.
ghost use Rattle.std.specs.Prelude.{◌≡◌, ◌≤◌, [], length, true, All, Ok, IfOk, IfErr, OnOk, MatchResult};
ghost use Rattle.layout_params.specs.Parameters.{AreLegal};
ghost use Rattle.sil_base.specs.Faults.{IsStopFor as IsFaultStopFor};
ghost use Rattle.sil_cards.specs.Cards.{AreCards};
ghost use Rattle.sil_program.specs.Built.{AreBuilt};
ghost use Rattle.sil_model.specs.WellFormed.{IsTable, IsWellFormed};
ghost use Rattle.data_asm.specs.Cells.{static_cells_of};
ghost use Rattle.sil_symbols.specs.SymbolRules.{EndsOnce};
ghost use Rattle.sil_symbols.specs.Symbols.{value_of};
ghost use Rattle.syntax_tables.specs.TableFiles.{names_in};
ghost use Rattle.syntax_tables.specs.Tables.{tables_of};
ghost use Rattle.sil_program.specs.HeldPrograms.{HaveShortLists, HaveShortTexts, IsMadeOf, IsProgramOf};
ghost use Rattle.sil_arguments.specs.HeldScopes.{IsBound};
ghost use Rattle.sil_program.specs.Specials.{special_faults};
ghost use Rattle.sil_program.specs.Statements.{statements_of};
ghost use Rattle.sil_program.specs.Verdicts.{is_built_source, is_built_statement, unless_faults, verdict_built, verdict_with, verdict_of, verdict, IsStopFor, IsUnbuilt};

use crate::built::is_built;
use crate::laws::law_of_programs;
use crate::program::program_over;
use crate::specials::{special_faults, specials_of};
use crate::statements::statements_of;
use crate::tables::tables_of;
use data_asm::assemble;
use layout_params::{Cell, Params};
use sil_arguments::{BoundSource, ProgramStop};
use sil_base::{Fault, FaultStop, Items, MAX_CARDS, MAX_FILE_BYTES, MAX_TABLES};
use sil_cards::Card;
use sil_format::law_of_formats;
use sil_macros::is_assembly;
use sil_model::{Program, Table};
use sil_operands::what_is_read_is_spelled;
use sil_shapes::{Resolution, statement_faults};
use sil_symbols::{Stmt, law_of_values, resolve};
use std::alloc::Global;
use syntax_tables::read_tables;

fn is_built_statement(statement: &Stmt) -> bool
    ensures { result ≡ is_built_statement statement.now }
{
    is_assembly(statement.name) || is_built(statement.name)
}

/// Whether all statements are of macros that are built.
fn is_built_source(statements: &[Stmt]) -> bool
    ensures { result ≡ is_built_source statements.now }
{
    statements
        .iter()
        .all(|statement| is_built_statement(statement))
}

/// Parameters are legal.
fn law_of_params(params: &Params)
    ensures { AreLegal params.now }
{
    let _ = params.numbers();
}

/// Whether there are none of these faults.
fn faultless(faults: Vec<Fault>) -> Result<(), FaultStop>
    ensures none { OnOk result (faults.items ≡ []) }
    ensures faults { IfErr result (IsFaultStopFor faults.items) }
{
    if faults.is_empty() {
        Ok(())
    } else {
        Err(FaultStop::Faults(Items::of(faults)))
    }
}

/// The program of a source without faults, over its static cells and with its tables and special
/// symbols, or why there is none.
fn make_program(
    alloc: Global,
    bound: &BoundSource<'_>,
    cells: Vec<Cell>,
    tables: Vec<Table>,
) -> Result<Program, ProgramStop>
    requires bound { IsBound bound.now }
    requires needs { special_faults bound.now.source.params.now bound.now.source.statements.now ≡ [] }
    requires cells { cells.items ≡ static_cells_of bound.now.source.params.now bound.now.source.statements.now }
    requires tables { tables.items ≡ tables_of (value_of bound.now.source.params.now bound.now.source.statements.now) bound.now.tables.now }
    requires good { All (IsTable (length tables.items)) tables.items }
    requires count { length tables.items ≡ length (names_in bound.now.tables.now) }
    requires few { length tables.items ≤ MAX_TABLES }
    ensures verdict { let answer = verdict_built bound.now.source.params.now bound.now.source.statements.now bound.now.tables.now
        in MatchResult result (λ p. answer ≡ Ok p) (IsStopFor answer) }
    ensures made { IfOk result (IsMadeOf bound.now.source.params.now bound.now.source.statements.now bound.now.tables.now cells.items) }
{
    law_of_params(bound.source.params);
    if !is_built_source(bound.source.statements) {
        return Err(ProgramStop::NotBuilt);
    }
    let specials = specials_of(&bound.source);
    let program = program_over(alloc, bound, cells, tables, specials)?;
    Ok(program)
}

/// The program of a source with these tables, or why there is none.
fn check_specials(
    alloc: Global,
    bound: &BoundSource<'_>,
    cells: Vec<Cell>,
    tables: Vec<Table>,
) -> Result<Program, ProgramStop>
    requires bound { IsBound bound.now }
    requires cells { cells.items ≡ static_cells_of bound.now.source.params.now bound.now.source.statements.now }
    requires tables { tables.items ≡ tables_of (value_of bound.now.source.params.now bound.now.source.statements.now) bound.now.tables.now }
    requires good { All (IsTable (length tables.items)) tables.items }
    requires count { length tables.items ≡ length (names_in bound.now.tables.now) }
    requires few { length tables.items ≤ MAX_TABLES }
    ensures verdict { let answer = unless_faults (special_faults bound.now.source.params.now bound.now.source.statements.now)
        (verdict_built bound.now.source.params.now bound.now.source.statements.now bound.now.tables.now)
        in MatchResult result (λ p. answer ≡ Ok p) (IsStopFor answer) }
    ensures made { IfOk result (IsMadeOf bound.now.source.params.now bound.now.source.statements.now bound.now.tables.now cells.items) }
{
    let specials = specials_of(&bound.source);
    faultless(special_faults(alloc, &bound.source, &specials)?)?;
    make_program(alloc, bound, cells, tables)
}

/// The program of a source whose symbols, statements and data are in order, over its static cells,
/// or why there is none.
fn check_tables(
    alloc: Global,
    bound: &BoundSource<'_>,
    cells: Vec<Cell>,
) -> Result<Program, ProgramStop>
    requires bound { IsBound bound.now }
    requires cells { cells.items ≡ static_cells_of bound.now.source.params.now bound.now.source.statements.now }
    ensures verdict { let answer = verdict_with bound.now.source.params.now bound.now.source.statements.now bound.now.tables.now
        in MatchResult result (λ p. answer ≡ Ok p) (IsStopFor answer) }
    ensures made { IfOk result (IsMadeOf bound.now.source.params.now bound.now.source.statements.now bound.now.tables.now cells.items) }
{
    let tables = tables_of(alloc, bound)?;
    check_specials(alloc, bound, cells, tables)
}

/// The program of the statements of a source, or why there is none.
fn check_statements(
    alloc: Global,
    statements: &[Stmt],
    tables: &[u8],
    params: &Params,
) -> Result<Program, ProgramStop>
    requires few { length statements.now ≤ MAX_CARDS }
    requires short { length tables.now ≤ MAX_FILE_BYTES }
    requires ended { EndsOnce statements.now }
    requires lists { HaveShortLists statements.now }
    requires texts { HaveShortTexts statements.now }
    ensures verdict { let answer = verdict_of params.now statements.now tables.now
        in MatchResult result (λ p. answer ≡ Ok p) (IsStopFor answer) }
    ensures made { IfOk result (IsProgramOf params.now statements.now) }
{
    let symbols = resolve(alloc, statements, params)?;
    let source = Resolution::of(params, statements, &symbols);
    faultless(statement_faults(alloc, &source)?)?;
    let cells = assemble(alloc, statements, &symbols, params)?;
    let written = read_tables(alloc, tables)?;
    let bound = BoundSource {
        source,
        tables: &written,
    };
    check_tables(alloc, &bound, cells)
}

/// The program of cards that were read, or why there is none. Faults of lines come first, those of
/// names (N), then those of values (V), of statements (S), of data (A), of tables (T), which are the
/// operands that name none and the lines of the tables file, and of special symbols (P). A source
/// is not built so far where a statement is neither of the assembly nor of a macro that is installed
/// so far.
pub fn check_cards(
    alloc: Global,
    cards: Vec<Card>,
    tables: &[u8],
    params: &Params,
) -> Result<Program, ProgramStop>
    requires few { length cards.items ≤ MAX_CARDS }
    requires short { length tables.now ≤ MAX_FILE_BYTES }
    requires good { AreCards cards.items }
    ensures verdict { let answer = verdict cards.items tables.now params.now
        in MatchResult result (λ p. answer ≡ Ok p) (IsStopFor answer) }
    ensures complete { IfErr result (IsUnbuilt (statements_of cards.items)) }
    ensures well_formed { IfOk result (λ p. IsWellFormed p params.now.settings) }
    ensures built { IfOk result AreBuilt }
{
    what_is_read_is_spelled();
    law_of_values();
    law_of_formats();
    law_of_programs();
    let statements = statements_of(alloc, cards)?;
    check_statements(alloc, &statements, tables, params)
}
