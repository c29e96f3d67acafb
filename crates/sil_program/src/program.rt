// The program of statements.
ghost use Rattle.std.specs.Prelude.{◌≡◌, MatchResult, IfOk, Some};
ghost use Rattle.sil_symbols.specs.StatementParts.{part_of, is_format};
ghost use Rattle.sil_symbols.specs.Symbols.{value_of};
ghost use Rattle.syntax_tables.specs.Tables.{tables_of};
ghost use Rattle.sil_program.specs.Programs.{formats_of, machine_statement, machine_statements, program_over};
ghost use Rattle.sil_program.specs.Specials.{specials_in};
ghost use Rattle.sil_arguments.specs.HeldScopes.{IsBound, IsUnmade, scope_in};

use data_asm::first_text;
use layout_params::Cell;
use sil_arguments::{BoundSource, ProgramStop, args_of};
use sil_base::{Items, Record};
use sil_macros::{Macro, is_assembly, shape};
use sil_model::{Program, Specials, Statement, Table};
use sil_symbols::Stmt;
use std::alloc::{AllocError, Global};

/// An executable statement of a source.
fn machine_statement(
    alloc: Global,
    bound: &BoundSource<'_>,
    statement: &Stmt,
) -> Result<Statement, ProgramStop>
    requires { IsBound bound.now }
    ensures { let made = machine_statement (scope_in bound.now) statement.now
        in MatchResult result (λ s. made ≡ Some s) (IsUnmade made) }
{
    let shape = shape(statement.name);
    let args = args_of(alloc, bound, shape.places(), statement.operands.items())?;
    Ok(Statement {
        card: statement.card,
        name: statement.name,
        args: Items::of(args),
    })
}

/// The executable statements of a source.
fn machine_statements(alloc: Global, bound: &BoundSource<'_>) -> Result<Vec<Statement>, ProgramStop>
    requires { IsBound bound.now }
    ensures { let made = machine_statements (scope_in bound.now) bound.now.source.statements.now
        in MatchResult result (λ v. made ≡ Some v.items) (IsUnmade made) }
{
    let mut made = Vec::new(alloc);
    for statement in bound.source.statements {
        if !is_assembly(statement.name) {
            made.push(machine_statement(alloc, bound, statement)?)?;
        }
    }
    Ok(made)
}

fn is_format(name: Macro) -> bool
    ensures { result ≡ is_format (part_of name) }
{
    name == Macro::Format
}

/// The texts of FORMAT statements.
fn formats_of(alloc: Global, statements: &[Stmt]) -> Result<Vec<Record>, AllocError>
    ensures { IfOk result (λ v. v.items ≡ formats_of statements.now) }
{
    let mut formats = Vec::new(alloc);
    for statement in statements {
        if is_format(statement.name) {
            formats.push(Record::of(alloc, first_text(statement.operands.items()))?)?;
        }
    }
    Ok(formats)
}

/// The program of a source with these static cells, tables and special symbols.
pub(crate) fn program_over(
    alloc: Global,
    bound: &BoundSource<'_>,
    cells: Vec<Cell>,
    tables: Vec<Table>,
    specials: Specials,
) -> Result<Program, ProgramStop>
    requires bound { IsBound bound.now }
    requires tables { tables.items ≡ tables_of (value_of bound.now.source.params.now bound.now.source.statements.now) bound.now.tables.now }
    requires specials { specials ≡ specials_in bound.now.source.params.now bound.now.source.statements.now }
    ensures program { let made = program_over bound.now.source.params.now bound.now.source.statements.now bound.now.tables.now cells.items
        in MatchResult result (λ p. made ≡ Some p) (IsUnmade made) }
    ensures cells { IfOk result (λ p. p.cells ≡ cells.items) }
    ensures tables { IfOk result (λ p. p.tables ≡ tables.items) }
    ensures specials { IfOk result (λ p. p.specials ≡ specials) }
{
    let made = machine_statements(alloc, bound)?;
    let formats = formats_of(alloc, bound.source.statements)?;
    Ok(Program {
        statements: Items::of(made),
        cells: Items::of(cells),
        tables: Items::of(tables),
        formats: Items::of(formats),
        specials,
    })
}
