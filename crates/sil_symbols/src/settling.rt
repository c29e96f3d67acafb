// The outcomes of labels, by what their EQUs name.
ghost use Rattle.std.specs.Prelude.{◌≡◌, ◌<◌, ◌≤◌, ℕ, length, false, true, List, IfOk, map};
ghost use Rattle.sil_symbols.specs.NameValues.{Meaning, meaning_at, meanings, first_outcome, outcome_within};
ghost use Rattle.sil_symbols.specs.HeldNames.{names_in, means_in, settled_count, AreSettling, IsQuiet};

use crate::expressions::{is_circular, outcome_at, outcome_of};
use crate::labels::equation_of;
use crate::names::Names;
use crate::outcome::Outcome;
use crate::part::{Part, part_of};
use crate::stmt::Stmt;
use std::alloc::{AllocError, Global};

/// The outcome of a label with this address, before any EQU is settled.
fn first_outcome(address: Outcome, statement: &Stmt) -> Outcome
    ensures { result ≡ first_outcome (meaning_at address statement.now) }
{
    match (part_of(statement.name), equation_of(statement)) {
        (Part::Equation, Some(_)) => Outcome::Circular,
        (Part::Equation, None) => Outcome::NoValue,
        _ => address,
    }
}

fn first_outcomes(
    alloc: Global,
    statements: &[Stmt],
    addresses: &[Outcome],
) -> Result<Vec<Outcome>, AllocError>
    requires { length addresses.now ≡ length statements.now }
    ensures { IfOk result (λ v. v.items ≡ map first_outcome (meanings addresses.now statements.now)) }
{
    let mut outcomes = Vec::new(alloc);
    for (place, statement) in statements.iter().enumerate() {
        outcomes.push(first_outcome(addresses[place], statement))?;
    }
    Ok(outcomes)
}

/// Settles the EQU at a place, and answers whether it wasn't settled before and is now.
fn settle_at(statements: &[Stmt], names: &Names, outcomes: &mut [Outcome], place: usize) -> bool
    requires within { place < length statements.now }
    requires same_length { length outcomes.old ≡ length statements.now }
    ensures sound { (labels : List Meaning) → AreSettling names.now statements.now labels outcomes.old
        → AreSettling names.now statements.now labels outcomes.new }
    ensures quiet { result ≡ false → outcomes.new ≡ outcomes.old }
    ensures done { result ≡ false → (labels : List Meaning) → AreSettling names.now statements.now labels outcomes.old
        → IsQuiet names.now labels outcomes.old place }
    ensures more { result ≡ true → settled_count outcomes.old < settled_count outcomes.new }
{
    if !outcome_at(outcomes, place).is_circular() {
        return false;
    }
    let Some(terms) = equation_of(&statements[place]) else {
        return false;
    };
    if is_circular(terms, names, outcomes) {
        return false;
    }
    outcomes[place] = outcome_of(terms, names, outcomes);
    true
}

/// Settles EQUs in this order, each once.
fn settle_in_order(statements: &[Stmt], names: &Names, outcomes: &mut [Outcome], order: &[u32])
    requires { length outcomes.old ≡ length statements.now }
    ensures { (labels : List Meaning) → AreSettling names.now statements.now labels outcomes.old
        → AreSettling names.now statements.now labels outcomes.new }
{
    for place in order {
        if (*place as usize) < statements.len() {
            settle_at(statements, names, outcomes, *place as usize);
        }
    }
}

/// Settles each EQU once, and answers whether one was.
fn settle_each(statements: &[Stmt], names: &Names, outcomes: &mut [Outcome]) -> bool
    requires { length outcomes.old ≡ length statements.now }
    ensures sound { (labels : List Meaning) → AreSettling names.now statements.now labels outcomes.old
        → AreSettling names.now statements.now labels outcomes.new }
    ensures done { result ≡ false → (labels : List Meaning) → AreSettling names.now statements.now labels outcomes.old
        → (place : ℕ) → place < length statements.now → IsQuiet names.now labels outcomes.new place }
    ensures more { result ≡ true → settled_count outcomes.old < settled_count outcomes.new }
{
    let mut settled = false;
    for place in 0..statements.len() {
        if settle_at(statements, names, outcomes, place) {
            settled = true;
        }
    }
    settled
}

/// Settles all EQUs that aren't circular.
fn settle_all(statements: &[Stmt], names: &Names, outcomes: &mut [Outcome], order: &[u32])
    requires { length outcomes.old ≡ length statements.now }
    ensures { (labels : List Meaning) → AreSettling names.now statements.now labels outcomes.old
        → AreSettling names.now statements.now labels outcomes.new
        × ((place : ℕ) → place < length statements.now → IsQuiet names.now labels outcomes.new place) }
{
    settle_in_order(statements, names, outcomes, order);
    while settle_each(statements, names, outcomes) {}
}

/// The outcomes of labels with these addresses. The order is one in which each EQU stands after
/// those that it names, for speed alone.
pub(crate) fn settle(
    alloc: Global,
    statements: &[Stmt],
    names: &Names,
    order: &[u32],
    addresses: &[Outcome],
) -> Result<Vec<Outcome>, AllocError>
    requires { length addresses.now ≡ length statements.now }
    ensures count { IfOk result (λ v. length v.items ≡ length statements.now) }
    ensures outcomes { IfOk result (λ v. (name : List ℕ) → names_in names.now v.items name
        ≡ outcome_within (length statements.now) (means_in names.now (meanings addresses.now statements.now)) name) }
{
    let mut outcomes = first_outcomes(alloc, statements, addresses)?;
    settle_all(statements, names, &mut outcomes, order);
    Ok(outcomes)
}
