// The faults of syntax tables.
ghost use Rattle.std.specs.Prelude.{◌≡◌, ◌++◌, ◌≤◌, [], length, All, IfOk, IfErr, OnOk};
ghost use Rattle.sil_base.specs.Faults.{IsStopFor};
ghost use Rattle.sil_model.specs.WellFormed.{IsTable};
ghost use Rattle.sil_symbols.specs.Symbols.{value_of};
ghost use Rattle.syntax_tables.specs.TableFiles.{names_in, table_named};
ghost use Rattle.syntax_tables.specs.Tables.{tables_of};
ghost use Rattle.sil_arguments.specs.MadeArguments.{first_of};
ghost use Rattle.sil_arguments.specs.HeldScopes.{IsBound};
ghost use Rattle.sil_program.specs.TableFaults.{is_astray, goes_astray, table_rule, operand_faults, table_faults};

use sil_arguments::{BoundSource, rest_of};
use sil_base::{Fault, FaultStop, Items, MAX_TABLES, SOURCE_FILE, fault_at};
use sil_macros::{Kind, Place, shape};
use sil_model::Table;
use sil_operands::{Operand, named_alone};
use sil_symbols::Stmt;
use std::alloc::{AllocError, Global};
use syntax_tables::{Written, bind};

/// Whether an operand in the place of a table is the name of none.
fn is_astray(tables: &Written, kind: Kind, operand: &Operand) -> bool
    ensures { result ≡ is_astray (table_named (names_in tables.now)) kind operand.now }
{
    match (kind, operand) {
        (Kind::Table, Operand::Expr(expr)) => match named_alone(expr.terms()) {
            Some(name) => tables.find(name).is_none(),
            None => true,
        },
        _ => false,
    }
}

/// The same of the first operand, or a null one.
fn first_is_astray(tables: &Written, kind: Kind, operands: &[Operand]) -> bool
    ensures { result ≡ is_astray (table_named (names_in tables.now)) kind (first_of operands.now) }
{
    match operands.first() {
        Some(operand) => is_astray(tables, kind, operand),
        None => false,
    }
}

/// Whether an operand in one of these places is the name of no table, where it is to name one.
fn goes_astray(tables: &Written, places: &[Place], operands: &[Operand]) -> bool
    ensures { result ≡ goes_astray (table_named (names_in tables.now)) places.now operands.now }
{
    let Some((place, places)) = places.split_first() else {
        return false;
    };
    first_is_astray(tables, place.kind, operands) || goes_astray(tables, places, rest_of(operands))
}

/// The rule of tables that a statement breaks.
fn table_rule(tables: &Written, statement: &Stmt) -> Option<u8>
    ensures { result ≡ table_rule (table_named (names_in tables.now)) 0 statement.now }
{
    let places = shape(statement.name);
    if goes_astray(tables, places.places(), statement.operands.items()) {
        Some(7)
    } else {
        None
    }
}

/// The statements that name no table where they are to name one.
#[tactic(auto, unfolding(crate::specs::TableFaults::operand_faults))]
fn operand_faults(
    alloc: Global,
    tables: &Written,
    statements: &[Stmt],
) -> Result<Vec<Fault>, AllocError>
    ensures { IfOk result (λ v. v.items ≡ operand_faults (table_named (names_in tables.now)) statements.now) }
{
    let mut faults = Vec::new(alloc);
    for statement in statements {
        if let Some(rule) = table_rule(tables, statement) {
            faults.push(fault_at(SOURCE_FILE, b'T', statement.card, rule))?;
        }
    }
    Ok(faults)
}

/// The tables of a source, or the faults of its operands and of its tables file.
pub(crate) fn tables_of(alloc: Global, bound: &BoundSource<'_>) -> Result<Vec<Table>, FaultStop>
    requires { IsBound bound.now }
    ensures faultless { OnOk result (table_faults bound.now.source.params.now bound.now.source.statements.now bound.now.tables.now ≡ []) }
    ensures tables { IfOk result (λ v. v.items ≡ tables_of (value_of bound.now.source.params.now bound.now.source.statements.now) bound.now.tables.now) }
    ensures good { IfOk result (λ v. All (IsTable (length v.items)) v.items) }
    ensures count { IfOk result (λ v. length v.items ≡ length (names_in bound.now.tables.now)) }
    ensures few { IfOk result (λ v. length v.items ≤ MAX_TABLES) }
    ensures faults { IfErr result (IsStopFor (table_faults bound.now.source.params.now bound.now.source.statements.now bound.now.tables.now)) }
{
    let mut faults = operand_faults(alloc, bound.tables, bound.source.statements)?;
    match bind(alloc, bound.tables, bound.source.symbols) {
        Ok(tables) => {
            if faults.is_empty() {
                Ok(tables)
            } else {
                Err(FaultStop::Faults(Items::of(faults)))
            }
        }
        Err(FaultStop::Faults(more)) => {
            faults.extend_from_slice(more.items())?;
            Err(FaultStop::Faults(Items::of(faults)))
        }
        Err(FaultStop::Memory) => Err(FaultStop::Memory),
    }
}
