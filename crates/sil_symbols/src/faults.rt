// The faults of a source.
ghost use Rattle.std.specs.Prelude.{◌≡◌, ◌≤◌, ◌++◌, List, length, IfOk, OnOk};
ghost use Rattle.sil_base.specs.declared.line.Fault.{Fault};
ghost use Rattle.sil_symbols.specs.SymbolRules.{name_rule, value_rule, with_fault, faults_from};
ghost use Rattle.sil_symbols.specs.HeldNames.{parameter_in, label_in, names_in};

use crate::names::Names;
use crate::rules::{Values, name_rule, value_rule};
use crate::stmt::Stmt;
use sil_base::{Fault, MAX_CARDS, SOURCE_FILE, fault_at};
use std::alloc::{AllocError, Global};

/// Appends the fault of a card, where it breaks a rule.
fn push_fault(
    faults: &mut Vec<Fault>,
    letter: u8,
    card: u32,
    rule: Option<u8>,
) -> Result<(), AllocError>
    ensures { OnOk result ((rest : List Fault) → faults.new.items ++ rest ≡ faults.old.items ++ with_fault letter card rule rest) }
{
    if let Some(rule) = rule {
        faults.push(fault_at(SOURCE_FILE, letter, card, rule))?;
    }
    Ok(())
}

/// The faults by the rules N.
pub(crate) fn name_faults(
    alloc: Global,
    statements: &[Stmt],
    names: &Names,
) -> Result<Vec<Fault>, AllocError>
    requires { length statements.now ≤ MAX_CARDS }
    ensures { IfOk result (λ v. v.items ≡ faults_from 78 (name_rule (parameter_in names.now) (label_in names.now)) 0 statements.now) }
{
    let mut faults = Vec::new(alloc);
    for (place, statement) in statements.iter().enumerate() {
        let rule = name_rule(alloc, statement, place as u32, names)?;
        push_fault(&mut faults, b'N', statement.card, rule)?;
    }
    Ok(faults)
}

/// The faults by the rules V.
pub(crate) fn value_faults(
    alloc: Global,
    statements: &[Stmt],
    values: &Values<'_>,
) -> Result<Vec<Fault>, AllocError>
    ensures { IfOk result (λ v. v.items ≡ faults_from 86 (value_rule (names_in values.now.names.now values.now.sizes.now)
        (names_in values.now.names.now values.now.outcomes.now) values.now.is_over) 0 statements.now) }
{
    let mut faults = Vec::new(alloc);
    for statement in statements {
        let rule = value_rule(alloc, statement, values)?;
        push_fault(&mut faults, b'V', statement.card, rule)?;
    }
    Ok(faults)
}
