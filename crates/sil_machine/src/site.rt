// What a statement sees beside the state.
ghost use Rattle.std.specs.Prelude.{◌≡◌, ◌<◌, ◌≤◌, ◌^◌, IfSome, Some, length, pos, slice_get};
ghost use Rattle.std.specs.Option.{option_copied};
ghost use Rattle.sil_model.specs.Arguments.{maybe_places_at, places_at};
ghost use Rattle.sil_model.specs.Entries.{entered_statement};
ghost use Rattle.flow_clauses.specs.CallClauses.{call_at, entry_of, is_between, is_top, statement_of};
ghost use Rattle.flow_clauses.specs.FlowClauses.{first_dynamic, past_dynamic};
ghost use Rattle.sil_model.specs.Sites.{site_of};
ghost use Rattle.flow_clauses.specs.StackClauses.{bottom, summit};
ghost use Rattle.sil_model.specs.WellFormed.{IsWellFormed};
ghost use Rattle.string_clauses.specs.StringTable.{hidden_of};

use crate::places::{first_dynamic, hidden, last_cell, past_dynamic};
use layout_params::Params;
use sil_base::{FIRST_ENTRY, MAX_LIST_ITEMS, MAX_STATEMENTS};
use sil_macros::Macro;
use sil_model::{Arg, Program, Specials, Statement, limits_of, maybe_place_list, place_list};
use std::marker::Model;

/// A statement: its program, the parameters, its number and its operands.
#[derive(Drop)]
pub struct Site<'p> {
    program: &'p Program,
    params: &'p Params,
    statement: u32,
    args: &'p [Arg],
}

impl<'p> Model for Site<'p> {
    ghost use Rattle.sil_model.specs.Sites as sites;
    ghost use Rattle.sil_machine.specs.MachineSites.{seen_site, IsOnSite};

    ghost Value = { sites.Site };

    ghost view = { seen_site };

    ghost invariant = { λ s. IsOnSite (seen_site s) };
}

impl<'p> Site<'p> {
    /// The statement of a number.
    #[tactic(auto, using(crate::proofs::OnSites::on_sites))]
    pub fn of(
        program: &'p Program,
        params: &'p Params,
        k: u32,
        statement: &'p Statement,
    ) -> Site<'p>
        requires well_formed { IsWellFormed program.now params.now.settings }
        requires stands { slice_get program.now.statements k ≡ Some statement.now }
        ensures { result ≡ site_of program.now params.now k statement.now }
    {
        Site {
            program,
            params,
            statement: k,
            args: statement.args.items(),
        }
    }

    /// Its operands.
    pub fn args(&self) -> &'p [Arg]
        ensures { result.now ≡ self.now.args }
    {
        self.args
    }

    /// The list of places that the operand of a number is.
    #[tactic(auto, using(crate::proofs::OnSites::on_sites))]
    pub fn places(&self, i: usize) -> Option<&'p [i64]>
        ensures value { option_copied result ≡ places_at self.now.args i }
        ensures few { IfSome result (λ p. length p.now ≤ MAX_LIST_ITEMS) }
    {
        place_list(self.args, i)
    }

    /// The list of places that the operand of a number is, without items where it is null.
    #[tactic(auto, using(crate::proofs::OnSites::on_sites))]
    pub fn maybe_places(&self, i: usize) -> Option<&'p [i64]>
        ensures value { option_copied result ≡ maybe_places_at self.now.args i }
        ensures few { IfSome result (λ p. length p.now ≤ MAX_LIST_ITEMS) }
    {
        maybe_place_list(self.args, i)
    }

    /// The parameters.
    pub fn params(&self) -> &'p Params
        ensures { result.now ≡ self.now.parameters }
    {
        self.params
    }

    /// The special symbols.
    pub fn specials(&self) -> Specials
        ensures { result ≡ self.now.program.specials }
    {
        self.program.specials
    }

    /// The address of the hidden buffer.
    pub fn hidden(&self) -> i64
        ensures { result ≡ hidden_of self.now }
    {
        hidden(self.params, self.program.cells.items().len())
    }

    /// The address of the first cell of dynamic storage.
    pub fn first_dynamic(&self) -> i64
        ensures { result ≡ first_dynamic self.now.parameters.settings (length self.now.program.cells) }
    {
        first_dynamic(self.params, self.program.cells.items().len())
    }

    /// The address after the last cell of dynamic storage.
    pub fn past_dynamic(&self) -> i64
        ensures { result ≡ past_dynamic self.now.parameters.settings (length self.now.program.cells) }
    {
        past_dynamic(self.params, self.program.cells.items().len())
    }

    /// The address of the cell before the stack.
    pub fn bottom(&self) -> i64
        ensures { result ≡ bottom self.now }
    {
        self.params
            .settings()
            .empty_stack(self.program.cells.items().len())
    }

    /// The address of the last cell of the stack.
    pub fn summit(&self) -> i64
        ensures { result ≡ summit self.now }
    {
        last_cell(self.params, self.program.cells.items().len())
    }

    /// Whether an address is the cell before the stack, or a cell of the stack.
    #[tactic(auto, unfolding(flow_clauses::specs::CallClauses::is_top))]
    pub fn is_top(&self, at: i64) -> bool
        ensures { result ≡ is_top self.now at }
    {
        is_between(
            self.bottom(),
            self.summit(),
            limits_of(self.params).cell_size,
            at,
        )
    }

    /// The entry of the statement.
    #[tactic(auto, using(crate::proofs::OnSites::on_sites))]
    pub fn entry(&self) -> i64
        ensures { result ≡ pos (entry_of self.now self.now.statement) }
    {
        let size = limits_of(self.params).cell_size;
        (FIRST_ENTRY + self.statement as u64 * size) as i64
    }

    /// The statement whose entry a number is.
    pub fn statement_of(&self, entry: i64) -> Option<u32>
        ensures value { result ≡ statement_of self.now entry }
        ensures few { IfSome result (λ k. k < MAX_STATEMENTS) }
    {
        let count = self.program.statements.items().len();
        entered_statement(limits_of(self.params).cell_size, count, entry)
    }

    /// The RCALL of a number.
    #[tactic(auto, unfolding(flow_clauses::specs::CallClauses::call_at))]
    pub fn call(&self, k: u32) -> Option<&'p Statement>
        ensures { option_copied result ≡ call_at self.now k }
    {
        let statement = self.program.statements.items().get(k as usize)?;
        if statement.name == Macro::Rcall {
            Some(statement)
        } else {
            None
        }
    }
}

/// The statement, of so many, whose entry a number is, where entries are so far apart.
#[tactic(auto, unfolding(sil_model::specs::Entries::entered_statement))]
fn entered_statement(size: u64, count: usize, entry: i64) -> Option<u32>
    requires some { 0 < size }
    requires few { count ≤ MAX_STATEMENTS }
    ensures value { result ≡ entered_statement size count entry }
    ensures few { IfSome result (λ k. k < MAX_STATEMENTS) }
{
    let entry = u64::try_from(entry).ok()?;
    let offset = entry.checked_sub(FIRST_ENTRY)?;
    let k = offset / size;
    if offset % size == 0 && k < count as u64 {
        Some(k as u32)
    } else {
        None
    }
}

/// Whether an address is one of those from the first to the last that are so many bytes apart.
fn is_between(first: i64, last: i64, size: u64, at: i64) -> bool
    requires { 0 < size }
    ensures { result ≡ is_between first last size at }
{
    match (u64::try_from(first), u64::try_from(last), u64::try_from(at)) {
        (Ok(first), Ok(last), Ok(at)) => { first <= at && at <= last && (at - first) % size == 0 }
        _ => false,
    }
}
