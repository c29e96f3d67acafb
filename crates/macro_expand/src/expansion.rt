// The expansion of all statements of a program.
ghost use Rattle.std.specs.Prelude.{◌≡◌, ◌*◌, ◌<◌, ◌≤◌, ◌^◌, All, IfOk, IfSome, OnOk, IsTrue, length, map};
ghost use Rattle.sil_macros.specs.MacroRows.{row};
ghost use Rattle.flow_clauses.specs.CallClauses.{is_rcall};
ghost use Rattle.sil_runs.specs.Costs.{visits};
ghost use Rattle.sil_model.specs.Fits.{fit};
ghost use Rattle.sil_model.specs.Prints.{writes_records};
ghost use Rattle.sil_runs.specs.Table.{clause};
ghost use Rattle.sil_model.specs.WellFormed.{IsWellFormed};
ghost use Rattle.sil_micro.specs.Expands.{Expands};
ghost use Rattle.sil_micro.specs.Pieces.{weights};
ghost use Rattle.exp_calls.specs.Group.{is_return};
ghost use Rattle.exp_common.specs.Locations.{LocatesWithin};
ghost use Rattle.exp_common.specs.Allowed.{AreAmong, HasFewItems};
ghost use Rattle.exp_units.specs.InFormats.{ExpandsIn, HasFormat};
ghost use Rattle.macro_expand.specs.Expanded.{AreExpanded, IsExpandedTo, IsExpansion, RunsAsTheMachine, is_alone, is_expanded, is_here};
ghost use Rattle.macro_expand.specs.Steps.{StepsWithinCosts};

use exp_blocks::{expand_block, is_block};
use exp_calls::{expand_call, expand_return, is_call, is_return};
use exp_choices::{expand_choice, is_choice};
use exp_control::{expand_control, is_control};
use exp_descr::expand_descr;
use exp_flow::{expand_flow, is_flow};
use exp_powers::{expand_power, is_power};
use exp_spec::{expand_spec, is_spec};
use exp_stack::{expand_stack, is_stack};
use exp_tables::{expand_table, is_table};
use exp_trees::{expand_tree, is_tree};
use exp_units::{expand_move, expand_output, is_move, is_output};
use layout_params::Params;
use pattern_runtime::{expand_pattern, is_pattern};
use sil_base::{MAX_STATEMENTS, Record};
use sil_micro::{Code, MAX_PIECE_WEIGHT, law_on_ways};
use sil_model::{Program, Specials, Statement};
use sil_runs::law_of_steps;
use std::alloc::{AllocError, Global};
use string_runtime::{expand_string, is_string};

/// The code of a program: its runs are the program's runs, and each statement's operations weigh no
/// more than the statement may cost.
pub fn expand_all(alloc: Global, program: &Program, params: &Params) -> Result<Code, AllocError>
    requires well_formed { IsWellFormed program.now params.now.settings }
    requires built { AreExpanded program.now }
    ensures expansion { IfOk result (λ code. IsExpansion program.now code) }
    ensures runs { IfOk result (λ code. RunsAsTheMachine program.now params.now code) }
    ensures costs { IfOk result (λ code. StepsWithinCosts program.now params.now code) }
{
    law_of_steps();
    law_on_ways();
    let _ = params;
    let statements = program.statements.items();
    let mut code = Code::new(alloc);
    code.reserve_statements(statements.len() as u32)?;
    code.set_data(
        program.cells.items().len() as u32,
        copies(alloc, program.formats.items())?,
    );
    for (k, statement) in statements.iter().enumerate() {
        expand(alloc, statement, k as u32, &program.specials, &mut code)?;
    }
    Ok(code)
}

/// Expands statement number `at`.
fn expand(
    alloc: Global,
    statement: &Statement,
    at: u32,
    specials: &Specials,
    code: &mut Code,
) -> Result<(), AllocError>
    requires group { IsTrue (is_expanded statement.now.name) }
    requires fits { IsTrue (fit (row statement.now.name).places statement.now.args) }
    requires locations { All (LocatesWithin (length code.old.entries)) statement.now.args }
    requires items { All HasFewItems statement.now.args }
    requires among { AreAmong (length code.old.entries) specials.now }
    requires value { IfSome specials.now.int_code (λ v. v < 2 ^ 63) }
    requires formats { All (HasFormat code.old.formats) statement.now.args }
    requires few_formats { length code.old.formats < 2 ^ 32 }
    requires number { at < length code.old.entries }
    requires few { length code.old.entries ≤ MAX_STATEMENTS }
    requires light { weights code.old.ops ≤ MAX_PIECE_WEIGHT * at }
    ensures { OnOk result (IsExpandedTo (is_rcall statement.now.name) (is_return statement.now.name) code.old code.new at specials.now statement.now.name statement.now.args) }
{
    if is_call(statement.name) {
        expand_call(alloc, statement, at, specials, code)
    } else if is_return(statement.name) {
        expand_return(alloc, statement, at, specials, code)
    } else {
        expand_here(alloc, statement, at, specials, code)
    }
}

/// Expands a statement that neither calls nor returns.
#[tactic(auto, using(crate::proofs::Groups::by_output))]
fn expand_here(
    alloc: Global,
    statement: &Statement,
    at: u32,
    specials: &Specials,
    code: &mut Code,
) -> Result<(), AllocError>
    requires group { IsTrue (is_here statement.now.name) }
    requires fits { IsTrue (fit (row statement.now.name).places statement.now.args) }
    requires locations { All (LocatesWithin (length code.old.entries)) statement.now.args }
    requires items { All HasFewItems statement.now.args }
    requires among { AreAmong (length code.old.entries) specials.now }
    requires value { IfSome specials.now.int_code (λ v. v < 2 ^ 63) }
    requires formats { All (HasFormat code.old.formats) statement.now.args }
    requires few_formats { length code.old.formats < 2 ^ 32 }
    requires number { at < length code.old.entries }
    requires few { length code.old.entries ≤ MAX_STATEMENTS }
    requires light { weights code.old.ops ≤ MAX_PIECE_WEIGHT * at }
    ensures { OnOk result (ExpandsIn code.old code.new at specials.now statement.now.args (clause statement.now.name) (visits statement.now.name) (writes_records statement.now.name)) }
{
    if is_output(statement.name) {
        expand_output(alloc, statement, at, specials, code)
    } else {
        expand_alone(alloc, statement, at, specials, code)
    }
}

/// Expands a statement that neither calls nor returns, and names no format.
#[tactic(auto, using(crate::proofs::Groups::groups))]
fn expand_alone(
    alloc: Global,
    statement: &Statement,
    at: u32,
    specials: &Specials,
    code: &mut Code,
) -> Result<(), AllocError>
    requires group { IsTrue (is_alone statement.now.name) }
    requires fits { IsTrue (fit (row statement.now.name).places statement.now.args) }
    requires locations { All (LocatesWithin (length code.old.entries)) statement.now.args }
    requires items { All HasFewItems statement.now.args }
    requires among { AreAmong (length code.old.entries) specials.now }
    requires value { IfSome specials.now.int_code (λ v. v < 2 ^ 63) }
    requires number { at < length code.old.entries }
    requires few { length code.old.entries ≤ MAX_STATEMENTS }
    requires light { weights code.old.ops ≤ MAX_PIECE_WEIGHT * at }
    ensures { OnOk result (Expands code.old code.new at specials.now statement.now.args (clause statement.now.name) (visits statement.now.name) (writes_records statement.now.name)) }
{
    if is_flow(statement.name) {
        expand_flow(alloc, statement, at, specials, code)
    } else if is_choice(statement.name) {
        expand_choice(alloc, statement, at, specials, code)
    } else if is_stack(statement.name) {
        expand_stack(alloc, statement, at, specials, code)
    } else if is_control(statement.name) {
        expand_control(alloc, statement, at, specials, code)
    } else if is_move(statement.name) {
        expand_move(alloc, statement, at, specials, code)
    } else if is_spec(statement.name) {
        expand_spec(alloc, statement, at, specials, code)
    } else if is_string(statement.name) {
        expand_string(alloc, statement, at, specials, code)
    } else if is_tree(statement.name) {
        expand_tree(alloc, statement, at, specials, code)
    } else if is_block(statement.name) {
        expand_block(alloc, statement, at, specials, code)
    } else if is_pattern(statement.name) {
        expand_pattern(alloc, statement, at, specials, code)
    } else if is_table(statement.name) {
        expand_table(alloc, statement, at, specials, code)
    } else if is_power(statement.name) {
        expand_power(alloc, statement, at, specials, code)
    } else {
        expand_descr(alloc, statement, at, specials, code)
    }
}

/// Copies of these records.
fn copies(alloc: Global, records: &[Record]) -> Result<Vec<Record>, AllocError>
    ensures { IfOk result (λ v. v.items ≡ records.now) }
{
    let mut copies = Vec::with_capacity(alloc, records.len())?;
    for record in records {
        copies.push(Record::of(alloc, record.bytes())?)?;
    }
    Ok(copies)
}
