// The symbols of a source.
ghost use Rattle.std.specs.Prelude.{◌≡◌, ◌≤◌, [], length, map, IfOk, IfErr, OnOk, slice_index_or, false, Some, None, if◌then◌else◌};
ghost use Rattle.sil_base.specs.Faults.{IsStopFor};
ghost use Rattle.sil_symbols.specs.Symbols.{value_in, IsWithinLimits};
ghost use Rattle.sil_symbols.specs.StatementParts.{part_of, is_format};
ghost use Rattle.sil_symbols.specs.SymbolRules.{value_rule, faults_from, faults_of, EndsOnce};
ghost use Rattle.sil_symbols.specs.HeldNames.{names_in, capped, HoldsNames};
ghost use Rattle.sil_symbols.specs.Resolved.{symbol_value, expression_value, symbol_format, is_past, AreOutcomes, Resolves};
ghost use Rattle.sil_symbols.specs.declared.addresses.Spot.{Spot};

use crate::addresses::{Spot, addresses_of};
use crate::expressions::{outcome_of, outcome_of_name};
use crate::faults::{name_faults, value_faults};
use crate::names::Names;
use crate::outcome::Outcome;
use crate::part::{Part, part_of};
use crate::rules::Values;
use crate::schedule::schedule;
use crate::settling::settle;
use crate::stmt::Stmt;
use layout_params::{Layout, Params};
use sil_base::{Fault, FaultStop, Items, MAX_CARDS, MAX_CELLS, MAX_STATEMENTS};
use sil_operands::Expr;
use std::alloc::{AllocError, Global};

/// Why a source has no symbols: the faults by the rules N, or where there are none by the rules V;
/// or want of memory.
pub type SymbolStop = FaultStop;

/// The symbols of a source, in the order of their definition.
#[derive(Debug, Drop)]
pub struct Symbols {
    names: Names,
    outcomes: Vec<Outcome>,
    formats: Vec<bool>,
}

/// The outcomes of labels for sizes and for all else, and whether the source is over its limits.
#[derive(Drop)]
struct Outcomes {
    sizes: Vec<Outcome>,
    outcomes: Vec<Outcome>,
    is_over: bool,
}

fn value_in(outcome: Outcome) -> Option<i64>
    ensures { result ≡ value_in outcome }
{
    match outcome {
        Outcome::Value(value) => Some(value),
        Outcome::NoValue | Outcome::Circular => None,
    }
}

impl Symbols {
    /// The value of a name.
    #[tactic(auto, unfolding(crate::specs::Resolved::symbol_value))]
    pub fn get(&self, name: &[u8]) -> Option<i64>
        ensures { result ≡ symbol_value self.now name.now }
    {
        value_in(outcome_of_name(name, &self.names, &self.outcomes))
    }

    /// The value of an expression.
    #[tactic(auto, unfolding(crate::specs::Resolved::expression_value))]
    pub fn value(&self, e: &Expr) -> Option<i64>
        ensures { result ≡ expression_value self.now e.now }
    {
        value_in(outcome_of(e, &self.names, &self.outcomes))
    }

    /// The place, in the list of statements, of the first statement with this label, where it is a
    /// FORMAT.
    #[tactic(auto, unfolding(crate::specs::Resolved::symbol_format))]
    pub fn format_of(&self, name: &[u8]) -> Option<u32>
        ensures { result ≡ symbol_format self.now name.now }
    {
        match self.names.label(name) {
            Some(place) => format_at(&self.formats, place),
            None => None,
        }
    }
}

/// The place, where a FORMAT stands there.
fn format_at(formats: &[bool], place: u32) -> Option<u32>
    ensures { result ≡ (if slice_index_or formats.now place false then Some place else None) }
{
    match formats.get(place as usize) {
        Some(true) => Some(place),
        _ => None,
    }
}

fn formats_of(alloc: Global, statements: &[Stmt]) -> Result<Vec<bool>, AllocError>
    ensures { IfOk result (λ v. v.items ≡ map (λ s. is_format (part_of s.name)) statements.now) }
{
    let mut formats = Vec::new(alloc);
    for statement in statements {
        formats.push(matches!(part_of(statement.name), Part::Format))?;
    }
    Ok(formats)
}

/// Whether a source of this extent has more cells or executable statements than the limits have.
fn is_past(extent: Spot, params: &Params) -> bool
    ensures { (whole : Spot) → extent ≡ capped whole → result ≡ is_past params.now whole }
{
    let hidden = 20u64.div_ceil(params.numbers().descr());
    let rest = hidden + params.dynamic_size() + params.stack_size();
    extent.cells.saturating_add(rest) > MAX_CELLS || extent.statements > MAX_STATEMENTS
}

/// No address for any label.
fn no_addresses(alloc: Global, statements: &[Stmt]) -> Result<Vec<Outcome>, AllocError>
    ensures { IfOk result (λ v. v.items ≡ map (λ s. Outcome.NoValue) statements.now) }
{
    let mut addresses = Vec::new(alloc);
    for _ in statements {
        addresses.push(Outcome::NoValue)?;
    }
    Ok(addresses)
}

/// The outcomes of the labels of statements.
fn outcomes_of(
    alloc: Global,
    statements: &[Stmt],
    params: &Params,
    names: &Names,
) -> Result<Outcomes, AllocError>
    requires { length statements.now ≤ MAX_CARDS }
    ensures { IfOk result (λ o. HoldsNames params.now statements.now names.now
        → AreOutcomes params.now statements.now names.now o) }
{
    let order = schedule(alloc, statements, names)?;
    let none = no_addresses(alloc, statements)?;
    let sizes = settle(alloc, statements, names, &order, &none)?;
    let descr = params.numbers().descr();
    let (addresses, extent) = addresses_of(alloc, descr, statements, names, &sizes)?;
    let outcomes = settle(alloc, statements, names, &order, &addresses)?;
    Ok(Outcomes {
        sizes,
        outcomes,
        is_over: is_past(extent, params),
    })
}

/// The faults by the rules V.
fn faults_by(
    alloc: Global,
    statements: &[Stmt],
    names: &Names,
    outcomes: &Outcomes,
) -> Result<Vec<Fault>, AllocError>
    ensures { IfOk result (λ v. v.items ≡ faults_from 86 (value_rule (names_in names.now outcomes.now.sizes.items)
        (names_in names.now outcomes.now.outcomes.items) outcomes.now.is_over) 0 statements.now) }
{
    let values = Values {
        names,
        sizes: &outcomes.sizes,
        outcomes: &outcomes.outcomes,
        is_over: outcomes.is_over,
    };
    value_faults(alloc, statements, &values)
}

/// The symbols of statements, of which there are at most 40,000.
pub fn resolve(alloc: Global, statements: &[Stmt], params: &Params) -> Result<Symbols, SymbolStop>
    requires { length statements.now ≤ MAX_CARDS }
    ensures resolved { IfOk result (Resolves params.now statements.now) }
    ensures faultless { OnOk result (faults_of params.now statements.now ≡ []) }
    ensures limits { OnOk result (EndsOnce statements.now → IsWithinLimits params.now statements.now) }
    ensures faults { IfErr result (IsStopFor (faults_of params.now statements.now)) }
{
    let names = Names::of(alloc, statements, params)?;
    let faults = name_faults(alloc, statements, &names)?;
    if !faults.is_empty() {
        return Err(FaultStop::Faults(Items::of(faults)));
    }
    let outcomes = outcomes_of(alloc, statements, params, &names)?;
    let faults = faults_by(alloc, statements, &names, &outcomes)?;
    if !faults.is_empty() {
        return Err(FaultStop::Faults(Items::of(faults)));
    }
    let formats = formats_of(alloc, statements)?;
    let Outcomes { outcomes, .. } = outcomes;
    Ok(Symbols {
        names,
        outcomes,
        formats,
    })
}
