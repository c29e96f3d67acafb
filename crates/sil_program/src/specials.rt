// The special symbols.
ghost use Rattle.std.specs.Prelude.{◌≡◌, option_and_then, IfOk};
ghost use Rattle.layout_params.specs.Sizes.{value_limit};
ghost use Rattle.sil_symbols.specs.Symbols.{value_of_name};
ghost use Rattle.sil_shapes.specs.HeldSources.{IsResolution};
ghost use Rattle.sil_shapes.specs.Locations.{executable_count, statement_at, number_within};
ghost use Rattle.sil_model.specs.Needs.{has_needed};
ghost use Rattle.sil_program.specs.HeldPrograms.{HasFitPlaces};
ghost use Rattle.sil_program.specs.Specials.{specials_in, special_rule, special_faults};

use layout_params::Layout;
use sil_base::{Fault, SOURCE_FILE, fault_at};
use sil_macros::Macro;
use sil_model::Specials;
use sil_shapes::{Resolution, number_within, statement_at};
use sil_symbols::Stmt;
use std::alloc::{AllocError, Global};

/// The executable statement whose entry is the value of a name.
fn statement_named(source: &Resolution<'_>, name: &[u8]) -> Option<u32>
    requires { IsResolution source.now }
    ensures { result ≡ option_and_then
        (statement_at source.now.params.now.settings.sizes.descr (executable_count source.now.statements.now))
        (value_of_name source.now.params.now source.now.statements.now name.now) }
{
    match source.value_of_name(name) {
        Some(at) => statement_at(source.params.numbers().descr(), source.count, at),
        None => None,
    }
}

/// The value of a name, where a V field may hold it.
fn number_named(source: &Resolution<'_>, name: &[u8]) -> Option<u64>
    requires { IsResolution source.now }
    ensures { result ≡ option_and_then (number_within (value_limit source.now.params.now.settings.sizes))
        (value_of_name source.now.params.now source.now.statements.now name.now) }
{
    match source.value_of_name(name) {
        Some(value) => number_within(source.params.vmax(), value),
        None => None,
    }
}

/// The special symbols of a source.
pub(crate) fn specials_of(source: &Resolution<'_>) -> Specials
    requires { IsResolution source.now }
    ensures value { result ≡ specials_in source.now.params.now source.now.statements.now }
    ensures fits { HasFitPlaces result }
{
    Specials {
        over: statement_named(source, b"OVER"),
        under: statement_named(source, b"INTR10"),
        stype: source.value_of_name(b"STYPE"),
        first: source.value_of_name(b"FRSGPT"),
        head: source.value_of_name(b"HDSGPT"),
        tail: source.value_of_name(b"TLSGP1"),
        int_code: number_named(source, b"I"),
    }
}

/// Whether the special symbols that a macro needs are there.
fn has_needed(specials: &Specials, name: Macro) -> bool
    ensures { result ≡ has_needed specials.now name }
{
    match name {
        Macro::Rcall | Macro::Push | Macro::Spush => specials.over.is_some(),
        Macro::Pop | Macro::Spop => specials.under.is_some(),
        Macro::Stream => specials.stype.is_some(),
        Macro::Init => {
            specials.first.is_some() && specials.head.is_some() && specials.tail.is_some()
        }
        Macro::Spcint => specials.int_code.is_some(),
        _ => true,
    }
}

/// The rule of special symbols that a statement breaks.
fn special_rule(specials: &Specials, statement: &Stmt) -> Option<u8>
    ensures { result ≡ special_rule specials.now 0 statement.now }
{
    if has_needed(specials, statement.name) {
        None
    } else {
        Some(1)
    }
}

/// The statements whose macros need a special symbol that is missing or unfit.
#[tactic(auto, unfolding(crate::specs::Specials::special_faults))]
pub(crate) fn special_faults(
    alloc: Global,
    source: &Resolution<'_>,
    specials: &Specials,
) -> Result<Vec<Fault>, AllocError>
    requires { specials.now ≡ specials_in source.now.params.now source.now.statements.now }
    ensures { IfOk result (λ v. v.items ≡ special_faults source.now.params.now source.now.statements.now) }
{
    let mut faults = Vec::new(alloc);
    for statement in source.statements {
        if let Some(rule) = special_rule(specials, statement) {
            faults.push(fault_at(SOURCE_FILE, b'P', statement.card, rule))?;
        }
    }
    Ok(faults)
}
