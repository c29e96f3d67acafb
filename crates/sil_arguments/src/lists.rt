// Lists of places and of locations, as the machine takes them.
ghost use Rattle.std.specs.Prelude.{◌≡◌, ◌∷◌, [], MatchResult, IfOk, Some};
ghost use Rattle.sil_shapes.specs.HeldSources.{IsResolution, measure_in};
ghost use Rattle.sil_arguments.specs.MadeArguments.{location_in, locations_in, place_in, places_in};
ghost use Rattle.sil_arguments.specs.HeldScopes.{IsUnmade};

use crate::stop::ProgramStop;
use sil_base::Items;
use sil_model::Arg;
use sil_operands::Expr;
use sil_shapes::Resolution;
use std::alloc::{AllocError, Global};

/// A list of one place.
pub(crate) fn one_place(alloc: Global, at: i64) -> Result<Arg, AllocError>
    ensures { IfOk result (λ a. a ≡ Arg.Places (at ∷ [])) }
{
    let mut places = Vec::new(alloc);
    places.push(at)?;
    Ok(Arg::Places(Items::of(places)))
}

/// A list of one location.
pub(crate) fn one_location(alloc: Global, statement: u32) -> Result<Arg, AllocError>
    ensures { IfOk result (λ a. a ≡ Arg.Gotos (Some statement ∷ [])) }
{
    let mut locations = Vec::new(alloc);
    locations.push(Some(statement))?;
    Ok(Arg::Gotos(Items::of(locations)))
}

/// The value of an item of a list of places.
fn place_in(source: &Resolution<'_>, item: &Option<Expr>) -> Option<i64>
    requires { IsResolution source.now }
    ensures { result ≡ place_in (measure_in source.now) item.now }
{
    match item {
        Some(expr) => source.value_of(expr),
        None => None,
    }
}

/// The places of a list.
pub(crate) fn places_in(
    alloc: Global,
    source: &Resolution<'_>,
    items: &[Option<Expr>],
) -> Result<Vec<i64>, ProgramStop>
    requires { IsResolution source.now }
    ensures { let made = places_in (measure_in source.now) items.now
        in MatchResult result (λ v. made ≡ Some v.items) (IsUnmade made) }
{
    let mut places = Vec::new(alloc);
    for item in items {
        let Some(at) = place_in(source, item) else {
            return Err(ProgramStop::NotBuilt);
        };
        places.push(at)?;
    }
    Ok(places)
}

/// Where an item of a list of locations leads.
fn location_in(source: &Resolution<'_>, item: &Option<Expr>) -> Option<Option<u32>>
    requires { IsResolution source.now }
    ensures { result ≡ location_in (measure_in source.now) item.now }
{
    match item {
        Some(expr) => Some(Some(source.location_of(expr)?)),
        None => Some(None),
    }
}

/// The locations of a list.
pub(crate) fn locations_in(
    alloc: Global,
    source: &Resolution<'_>,
    items: &[Option<Expr>],
) -> Result<Vec<Option<u32>>, ProgramStop>
    requires { IsResolution source.now }
    ensures { let made = locations_in (measure_in source.now) items.now
        in MatchResult result (λ v. made ≡ Some v.items) (IsUnmade made) }
{
    let mut locations = Vec::new(alloc);
    for item in items {
        let Some(location) = location_in(source, item) else {
            return Err(ProgramStop::NotBuilt);
        };
        locations.push(location)?;
    }
    Ok(locations)
}
