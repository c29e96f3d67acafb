// From the files of a source to its program.
ghost use Rattle.std.specs.Prelude.{◌≡◌, ◌≤◌, Ok, Err, false, length, IfSome, IfOk, IfErr, MatchResult, IsOkAnd};
ghost use Rattle.sil_cards.specs.Cards.{AreCards};
ghost use Rattle.sil_cards.specs.Readings.{cards_of};
ghost use Rattle.sil_model.specs.WellFormed.{IsWellFormed};
ghost use Rattle.sil_program.specs.Built.{AreBuilt};
ghost use Rattle.sil_check.specs.CheckStops.{is_free, CheckCause, IsAfterLoads, OnNotBuilt};
ghost use Rattle.sil_check.specs.CheckedPrograms.{IsChecked};
ghost use Rattle.sil_check.specs.HeldInputs.{inputs_by, source_held, AreRead};
ghost use Rattle.sil_check.specs.Inputs.{parameters_by, cards_by, job_of, job_in, checked_of, AreUnbuilt, IsUnbuiltSource};

use crate::checked::Checked;
use crate::inputs::{Inputs, Source, load_inputs};
use crate::names::SourceNames;
use crate::stop::CheckStop;
use layout_params::{Params, read_params};
use sil_base::{MAX_CARDS, MAX_FILE_BYTES, Store};
use sil_cards::Card;
use sil_model::Program;
use sil_program::check_cards;
use std::alloc::Global;

/// The parameters that a file gives.
fn parameters(alloc: Global, params: &[u8]) -> Result<Params, CheckStop>
    requires { length params.now ≤ MAX_FILE_BYTES }
    ensures told { MatchResult result
        (λ p. parameters_by params.now ≡ Ok p)
        (λ e. is_free e ≡ false → parameters_by params.now ≡ Err e) }
    ensures cause { IfErr result IsAfterLoads }
    ensures complete { IfErr result (OnNotBuilt ⊥) }
{
    Ok(read_params(alloc, params)?)
}

/// The cards of a source without faults.
fn cards_of(source: Source) -> Result<Vec<Card>, CheckStop>
    requires { AreRead source }
    ensures cards { MatchResult result
        (λ v. cards_by (source_held source) ≡ Ok v.items)
        (λ e. cards_by (source_held source) ≡ Err e) }
    ensures few { IfOk result (λ v. length v.items ≤ MAX_CARDS) }
    ensures good { IfOk result (λ v. AreCards v.items) }
    ensures cause { IfErr result IsAfterLoads }
    ensures complete { IfErr result (OnNotBuilt ⊥) }
{
    match source {
        Source::Cards(cards) => Ok(cards),
        Source::Faulty(faults) => Err(CheckStop::Faults(faults)),
    }
}

/// The program of cards and tables.
fn program_of(
    alloc: Global,
    cards: Vec<Card>,
    tables: &[u8],
    params: &Params,
) -> Result<Program, CheckStop>
    requires few { length cards.items ≤ MAX_CARDS }
    requires short { length tables.now ≤ MAX_FILE_BYTES }
    requires good { AreCards cards.items }
    ensures told { MatchResult result
        (λ p. job_of params.now tables.now cards.items
        ≡ Ok (record { program = p; parameters = params.now }))
        (λ e. is_free e ≡ false → job_of params.now tables.now cards.items ≡ Err e) }
    ensures well_formed { IfOk result (λ p. IsWellFormed p params.now.settings) }
    ensures built { IfOk result AreBuilt }
    ensures cause { IfErr result IsAfterLoads }
    ensures complete { IfErr result (OnNotBuilt (AreUnbuilt cards.items)) }
{
    Ok(check_cards(alloc, cards, tables, params)?)
}

/// The program of inputs, and its parameters.
#[tactic(auto, unfolding(crate::specs::Inputs::job_in))]
fn check_inputs(alloc: Global, inputs: Inputs) -> Result<Checked, CheckStop>
    requires short { length inputs.params.items ≤ MAX_FILE_BYTES }
    requires short_tables { length inputs.tables.items ≤ MAX_FILE_BYTES }
    requires read { AreRead inputs.source }
    ensures told { MatchResult result
        (λ c. job_in (inputs_by inputs) ≡ Ok c)
        (λ e. is_free e ≡ false → job_in (inputs_by inputs) ≡ Err e) }
    ensures checked { IfOk result IsChecked }
    ensures cause { IfErr result IsAfterLoads }
    ensures complete { IfErr result (OnNotBuilt (IsUnbuiltSource (source_held inputs.source))) }
{
    let Inputs {
        params,
        tables,
        source,
    } = inputs;
    let params = parameters(alloc, &params)?;
    let cards = cards_of(source)?;
    let program = program_of(alloc, cards, &tables, &params)?;
    Ok(Checked { program, params })
}

/// The program of the files of these names, or why they give none. The parameters are loaded first,
/// then the tables, then the source with its copies: the first load that is refused decides, then
/// the fault of the parameters, then the faults of the source and of the tables.
pub fn check<S: Store>(
    alloc: Global,
    store: &mut S,
    names: &SourceNames,
) -> Result<Checked, CheckStop>
    ensures told { IfSome (S.files store.old) (λ files. MatchResult result
        (λ c. checked_of names.now files ≡ Ok c)
        (λ e. is_free e ≡ false → checked_of names.now files ≡ Err e)) }
    ensures checked { IfOk result IsChecked }
    ensures kept { S.files store.new ≡ S.files store.old }
    ensures count { S.faults store.old ≤ S.faults store.new }
    ensures cause { IfErr result (λ e. CheckCause e (S.faults store.old) (S.faults store.new)) }
    ensures complete { IfSome (S.files store.old) (λ files. IfErr result
        (OnNotBuilt (IsOkAnd (cards_of files names.now.source) AreUnbuilt))) }
{
    let inputs = load_inputs(alloc, store, names)?;
    check_inputs(alloc, inputs)
}
