// Labels of statements.
ghost use Rattle.std.specs.Prelude.{◌≡◌, ◌≤◌, ℕ, List, length, IfOk, OnOk, nat_eq, Some, None, if◌then◌else◌};
ghost use Rattle.std.specs.Cmp.Lexicographic.{pointwise};
ghost use Rattle.std.specs.Option.{option_copied, option_or};
ghost use Rattle.indexmap.specs.IndexMap.{get_by};
ghost use Rattle.sil_symbols.specs.Labels.{is_labelled, defines, labelled};
ghost use Rattle.sil_symbols.specs.NameValues.{first_expression};
ghost use Rattle.sil_symbols.specs.HeldNames.{equation_of};

use crate::part::{Part, part_of};
use crate::stmt::Stmt;
use indexmap::IndexMap;
use sil_base::MAX_CARDS;
use sil_operands::{Expr, Operand, Operands};
use std::alloc::{AllocError, Global};

/// Whether the statement has a label, which names something.
pub(crate) fn is_labelled(statement: &Stmt) -> bool
    ensures { result ≡ is_labelled statement.now }
{
    !statement.label.bytes().is_empty()
        && !matches!(part_of(statement.name), Part::Unread | Part::End)
}

/// Adds the label of the statement at this place, unless it is there.
fn add_label(
    alloc: Global,
    labels: &mut IndexMap<Vec<u8>, u32>,
    statement: &Stmt,
    place: u32,
) -> Result<(), AllocError>
    ensures { OnOk result ((name : List ℕ)
        → get_by (λ k. pointwise nat_eq name k.items) labels.new
        ≡ option_or (get_by (λ k. pointwise nat_eq name k.items) labels.old) (if defines name statement.now then Some place else None)) }
{
    let label = statement.label.bytes();
    if !is_labelled(statement) || labels.contains_key(label) {
        return Ok(());
    }
    let key = Vec::from_slice(alloc, label)?;
    labels.insert(key, place)?;
    Ok(())
}

/// The place of the first statement with each label.
pub(crate) fn labels_of(
    alloc: Global,
    statements: &[Stmt],
) -> Result<IndexMap<Vec<u8>, u32>, AllocError>
    requires { length statements.now ≤ MAX_CARDS }
    ensures { IfOk result (λ labels. (name : List ℕ)
        → get_by (λ k. pointwise nat_eq name k.items) labels ≡ labelled statements.now name) }
{
    let mut labels = IndexMap::new(alloc);
    for (place, statement) in statements.iter().enumerate() {
        add_label(alloc, &mut labels, statement, place as u32)?;
    }
    Ok(labels)
}

/// The first operand, where it is an expression.
pub(crate) fn first_expression(operands: &Operands) -> Option<&Expr>
    ensures { option_copied result ≡ first_expression operands.now }
{
    match operands.items().first() {
        Some(Operand::Expr(terms)) => Some(terms),
        _ => None,
    }
}

/// The expression of an EQU.
pub(crate) fn equation_of(statement: &Stmt) -> Option<&Expr>
    ensures { option_copied result ≡ equation_of statement.now }
{
    match part_of(statement.name) {
        Part::Equation => first_expression(&statement.operands),
        _ => None,
    }
}
