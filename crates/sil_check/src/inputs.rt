// The files that a program is made from.
ghost use Rattle.std.specs.Prelude.{◌≡◌, ◌≤◌, Ok, Err, false, IfSome, IfOk, IfErr, MatchResult, length};
ghost use Rattle.sil_cards.specs.Readings.{cards_of};
ghost use Rattle.sil_check.specs.CheckStops.{is_free, CheckCause, OnNotBuilt};
ghost use Rattle.sil_check.specs.HeldInputs.{source_held, inputs_by, AreRead};
ghost use Rattle.sil_check.specs.Inputs.{loaded, source_by, inputs_of};

use crate::names::SourceNames;
use crate::stop::CheckStop;
use sil_base::{Fault, Items, MAX_FILE_BYTES, Store, load_file};
use sil_cards::{Card, CardStop, read_cards};
use std::alloc::Global;

/// What a source and its copies come to: cards, or the faults of their lines.
#[derive(Drop)]
pub enum Source {
    Cards(Vec<Card>),
    Faulty(Items<Fault>),
}

/// The bytes of the parameters and the tables, and what the source comes to.
#[derive(Drop)]
pub struct Inputs {
    pub params: Vec<u8>,
    pub tables: Vec<u8>,
    pub source: Source,
}

/// Loads a file.
fn load<S: Store>(alloc: Global, store: &mut S, name: &str) -> Result<Vec<u8>, CheckStop>
    ensures loaded { IfSome (S.files store.old) (λ files. MatchResult result
        (λ bytes. loaded files name.now MAX_FILE_BYTES ≡ Ok bytes.items)
        (λ e. is_free e ≡ false → loaded files name.now MAX_FILE_BYTES ≡ Err e)) }
    ensures within { IfOk result (λ bytes. length bytes.items ≤ MAX_FILE_BYTES) }
    ensures kept { S.files store.new ≡ S.files store.old }
    ensures count { S.faults store.old ≤ S.faults store.new }
    ensures cause { IfErr result (λ e. CheckCause e (S.faults store.old) (S.faults store.new)) }
    ensures complete { IfErr result (OnNotBuilt ⊥) }
{
    Ok(load_file(alloc, store, name, MAX_FILE_BYTES)?)
}

/// Reads a source and the files that it copies.
fn load_source<S: Store>(alloc: Global, store: &mut S, name: &str) -> Result<Source, CheckStop>
    ensures loaded { IfSome (S.files store.old) (λ files. MatchResult result
        (λ source. source_by (cards_of files name.now) ≡ Ok (source_held source))
        (λ e. is_free e ≡ false → source_by (cards_of files name.now) ≡ Err e)) }
    ensures read { IfOk result AreRead }
    ensures kept { S.files store.new ≡ S.files store.old }
    ensures count { S.faults store.old ≤ S.faults store.new }
    ensures cause { IfErr result (λ e. CheckCause e (S.faults store.old) (S.faults store.new)) }
    ensures complete { IfErr result (OnNotBuilt ⊥) }
{
    match read_cards(alloc, store, name) {
        Ok(cards) => Ok(Source::Cards(cards)),
        Err(CardStop::Faults(faults)) => Ok(Source::Faulty(faults)),
        Err(CardStop::Missing(name)) => Err(CheckStop::Missing(name)),
        Err(CardStop::TooLong(name)) => Err(CheckStop::TooLong(name)),
        Err(CardStop::Failed(name)) => Err(CheckStop::Failed(name)),
        Err(CardStop::Memory) => Err(CheckStop::Memory),
    }
}

/// Loads the parameters, the tables and then the source with its copies.
pub fn load_inputs<S: Store>(
    alloc: Global,
    store: &mut S,
    names: &SourceNames,
) -> Result<Inputs, CheckStop>
    ensures loaded { IfSome (S.files store.old) (λ files. MatchResult result
        (λ inputs. inputs_of names.now files ≡ Ok (inputs_by inputs))
        (λ e. is_free e ≡ false → inputs_of names.now files ≡ Err e)) }
    ensures short { IfOk result (λ inputs. length inputs.params.items ≤ MAX_FILE_BYTES) }
    ensures short_tables { IfOk result (λ inputs. length inputs.tables.items ≤ MAX_FILE_BYTES) }
    ensures read { IfOk result (λ inputs. AreRead inputs.source) }
    ensures kept { S.files store.new ≡ S.files store.old }
    ensures count { S.faults store.old ≤ S.faults store.new }
    ensures cause { IfErr result (λ e. CheckCause e (S.faults store.old) (S.faults store.new)) }
    ensures complete { IfErr result (OnNotBuilt ⊥) }
{
    let params = load(alloc, store, names.params())?;
    let tables = load(alloc, store, names.tables())?;
    let source = load_source(alloc, store, names.source())?;
    Ok(Inputs {
        params,
        tables,
        source,
    })
}
