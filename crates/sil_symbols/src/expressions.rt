// The outcomes of expressions.
ghost use Rattle.std.specs.Prelude.{◌≡◌, is_none, slice_index_or};
ghost use Rattle.sil_symbols.specs.Expressions.{factor_outcome, term_outcome, outcome_of, some_name, factor_names, is_circular};
ghost use Rattle.sil_symbols.specs.HeldNames.{outcome_by, names_in, origin_in};
ghost use Rattle.std.specs.List.{list_any};

use crate::names::Names;
use crate::origin::Origin;
use crate::outcome::{Outcome, number, product, sum};
use sil_operands::{Expr, Factor, Term};

/// The outcome of a name, by the outcomes of labels.
pub(crate) fn outcome_of_name(name: &[u8], names: &Names, outcomes: &[Outcome]) -> Outcome
    ensures { result ≡ names_in names.now outcomes.now name.now }
{
    match names.origin(name) {
        Some(Origin::Parameter(value)) => Outcome::Value(value),
        Some(Origin::Label(place)) => outcome_at(outcomes, place as usize),
        None => Outcome::NoValue,
    }
}

/// The outcome of the label of a statement.
pub(crate) fn outcome_at(outcomes: &[Outcome], place: usize) -> Outcome
    ensures { result ≡ slice_index_or outcomes.now place Outcome.NoValue }
{
    match outcomes.get(place) {
        Some(outcome) => *outcome,
        None => Outcome::NoValue,
    }
}

fn factor_outcome(factor: &Factor, names: &Names, outcomes: &[Outcome]) -> Outcome
    ensures { result ≡ factor_outcome (names_in names.now outcomes.now) factor.now }
{
    match factor {
        Factor::Name(name) => outcome_of_name(name.bytes(), names, outcomes),
        Factor::Number(n) => number(*n),
    }
}

/// The outcome of a term without its sign.
fn term_outcome(term: &Term, names: &Names, outcomes: &[Outcome]) -> Outcome
    ensures { result ≡ term_outcome (names_in names.now outcomes.now) term.now }
{
    let mut outcome = Outcome::Value(1);
    let factors = term.factors.items();
    for factor in factors {
        outcome = product(outcome, factor_outcome(factor, names, outcomes));
    }
    outcome
}

/// The outcome of an expression.
pub(crate) fn outcome_of(terms: &Expr, names: &Names, outcomes: &[Outcome]) -> Outcome
    ensures { result ≡ outcome_of (names_in names.now outcomes.now) terms.now }
{
    let mut outcome = Outcome::Value(0);
    let all = terms.terms();
    for term in all {
        outcome = sum(term.minus, outcome, term_outcome(term, names, outcomes));
    }
    outcome
}

fn factor_is_circular(factor: &Factor, names: &Names, outcomes: &[Outcome]) -> bool
    ensures { result ≡ factor_names (λ name. is_circular (names_in names.now outcomes.now name)) factor.now }
{
    match factor {
        Factor::Name(name) => outcome_of_name(name.bytes(), names, outcomes).is_circular(),
        Factor::Number(_) => false,
    }
}

fn term_is_circular(term: &Term, names: &Names, outcomes: &[Outcome]) -> bool
    ensures { result ≡ list_any (factor_names (λ name. is_circular (names_in names.now outcomes.now name)))
        term.now.factors }
{
    let factors = term.factors.items();
    for factor in factors {
        if factor_is_circular(factor, names, outcomes) {
            return true;
        }
    }
    false
}

/// Whether an expression names a circular one.
pub(crate) fn is_circular(terms: &Expr, names: &Names, outcomes: &[Outcome]) -> bool
    ensures { result ≡ some_name (λ name. is_circular (names_in names.now outcomes.now name)) terms.now }
{
    let all = terms.terms();
    for term in all {
        if term_is_circular(term, names, outcomes) {
            return true;
        }
    }
    false
}

fn factor_is_unknown(factor: &Factor, names: &Names) -> bool
    ensures { result ≡ factor_names (λ name. is_none (origin_in names.now name)) factor.now }
{
    match factor {
        Factor::Name(name) => names.origin(name.bytes()).is_none(),
        Factor::Number(_) => false,
    }
}

fn term_is_unknown(term: &Term, names: &Names) -> bool
    ensures { result ≡ list_any (factor_names (λ name. is_none (origin_in names.now name))) term.now.factors }
{
    let factors = term.factors.items();
    for factor in factors {
        if factor_is_unknown(factor, names) {
            return true;
        }
    }
    false
}

/// Whether an expression has a name that is no symbol.
pub(crate) fn is_unknown(terms: &Expr, names: &Names) -> bool
    ensures { result ≡ some_name (λ name. is_none (origin_in names.now name)) terms.now }
{
    let all = terms.terms();
    for term in all {
        if term_is_unknown(term, names) {
            return true;
        }
    }
    false
}
