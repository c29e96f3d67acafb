// The tables of a program, by its symbols.
ghost use Rattle.std.specs.Prelude.{◌≡◌, ◌+◌, ◌≤◌, ◌++◌, [], List, All, take, length, IfOk, IfErr, OnOk};
ghost use Rattle.std.specs.List.{list_any};
ghost use Rattle.sil_base.specs.Faults.{IsStopFor};
ghost use Rattle.sil_base.specs.Names.{is_word};
ghost use Rattle.sil_base.specs.declared.line.Fault.{Fault};
ghost use Rattle.sil_model.specs.WellFormed.{IsTable};
ghost use Rattle.sil_symbols.specs.Resolved.{expression_value};
ghost use Rattle.syntax_tables.specs.TableFiles.{names_in};
ghost use Rattle.syntax_tables.specs.Tables.{goes_astray, lacks_value, broken_by_rule, broken_by_name, broken_by, with_fault, count_after, faults_from, faults_of, tables_of};

use crate::reading::TableStop;
use crate::rule::{Move, Rule};
use crate::saying::Saying;
use crate::tables::tables_of;
use crate::written::Written;
use sil_base::{Fault, FaultStop, Items, MAX_TABLES, TABLES_FILE, fault_at};
use sil_model::Table;
use sil_operands::Expr;
use sil_symbols::Symbols;
use std::alloc::{AllocError, Global};

fn goes_astray(written: &Written, action: &Move) -> bool
    ensures { result ≡ goes_astray (names_in written.now) action.now }
{
    match action {
        Move::Goto(name) => written.find(name.bytes()).is_none(),
        Move::Contin | Move::Stop | Move::Stopsh | Move::Error => false,
    }
}

fn lacks_value(symbols: &Symbols, put: &Option<Expr>) -> bool
    ensures { result ≡ lacks_value (expression_value symbols.now) put.now }
{
    match put {
        Some(expr) => symbols.value(expr).is_none(),
        None => false,
    }
}

fn broken_by_rule(symbols: &Symbols, written: &Written, rule: &Rule) -> Option<u8>
    ensures { result ≡ broken_by_rule (expression_value symbols.now) (names_in written.now) rule.now }
{
    if goes_astray(written, &rule.action) {
        Some(5)
    } else if lacks_value(symbols, &rule.put) {
        Some(6)
    } else {
        None
    }
}

/// Whether one of the first so many tables has this name.
fn is_before(written: &Written, count: usize, name: &[u8]) -> bool
    ensures { result ≡ list_any (is_word name.now) (take count (names_in written.now)) }
{
    match written.first(name) {
        Some(first) => first < count,
        None => false,
    }
}

fn broken_by_name(written: &Written, count: usize, name: &[u8]) -> Option<u8>
    ensures { result ≡ broken_by_name (names_in written.now) count name.now }
{
    if is_before(written, count, name) {
        Some(3)
    } else if count == MAX_TABLES {
        Some(4)
    } else {
        None
    }
}

/// The least rule that a line breaks, after so many tables.
fn broken_by(symbols: &Symbols, written: &Written, count: usize, saying: &Saying) -> Option<u8>
    ensures { result ≡ broken_by (expression_value symbols.now) (names_in written.now) count saying.now }
{
    match saying {
        Saying::Begin(name) => broken_by_name(written, count, name.bytes()),
        Saying::For(_, rule) | Saying::Else(rule) => broken_by_rule(symbols, written, rule),
        Saying::End(_) => None,
    }
}

/// Appends the fault of a line, where it breaks a rule.
fn push_fault(faults: &mut Vec<Fault>, line: u32, rule: Option<u8>) -> Result<(), AllocError>
    ensures { OnOk result ((rest : List Fault) → faults.new.items ++ rest ≡ faults.old.items ++ with_fault line rule rest) }
{
    if let Some(rule) = rule {
        faults.push(fault_at(TABLES_FILE, b'T', line, rule))?;
    }
    Ok(())
}

/// The lines that break a rule.
#[tactic(auto, unfolding(crate::specs::Tables::faults_of))]
fn faults_of(alloc: Global, symbols: &Symbols, written: &Written) -> Result<Vec<Fault>, AllocError>
    ensures { IfOk result (λ v. v.items ≡ faults_of (expression_value symbols.now) written.now) }
{
    let mut faults = Vec::new(alloc);
    let mut count = 0;
    for said in written.lines() {
        let rule = broken_by(symbols, written, count, &said.saying);
        push_fault(&mut faults, said.line, rule)?;
        if let Saying::Begin(_) = &said.saying {
            count += 1;
        }
    }
    Ok(faults)
}

/// Stops at the lines that break a rule, where there are any.
fn stop_at_faults(alloc: Global, written: &Written, symbols: &Symbols) -> Result<(), TableStop>
    ensures faultless { OnOk result (faults_of (expression_value symbols.now) written.now ≡ []) }
    ensures faults { IfErr result (IsStopFor (faults_of (expression_value symbols.now) written.now)) }
{
    let faults = faults_of(alloc, symbols, written)?;
    if faults.is_empty() {
        Ok(())
    } else {
        Err(FaultStop::Faults(Items::of(faults)))
    }
}

/// The tables that a file writes, numbered from 0 in its order. Faults have the letter T: 3 a BEGIN
/// of a name that an earlier table has, 4 the BEGIN of the 257th table, 5 a GOTO that names no
/// table, 6 an expression of PUT without a value.
pub fn bind(alloc: Global, written: &Written, symbols: &Symbols) -> Result<Vec<Table>, TableStop>
    ensures tables { IfOk result (λ v. v.items ≡ tables_of (expression_value symbols.now) written.now) }
    ensures count { IfOk result (λ v. length v.items ≡ length (names_in written.now)) }
    ensures few { IfOk result (λ v. length v.items ≤ MAX_TABLES) }
    ensures good { IfOk result (λ v. All (IsTable (length v.items)) v.items) }
    ensures faultless { OnOk result (faults_of (expression_value symbols.now) written.now ≡ []) }
    ensures faults { IfErr result (IsStopFor (faults_of (expression_value symbols.now) written.now)) }
{
    stop_at_faults(alloc, written, symbols)?;
    Ok(tables_of(alloc, symbols, written)?)
}
