// Whether operands have the shape of their macro.
ghost use Rattle.std.specs.Prelude.{◌≡◌, is_some};
ghost use Rattle.std.specs.List.{list_all};
ghost use Rattle.sil_operands.specs.Simple.{named_alone};
ghost use Rattle.sil_shapes.specs.Shapes.{is_key, names_key, fits_expression, fits_list, takes_text, fits_place, fits_places, fits};

use sil_macros::{Kind, Macro, Place, shape};
use sil_operands::{Expr, Operand, Operands, Term, are_null, named_alone};

fn is_key(name: &[u8]) -> bool
    ensures { result ≡ is_key name.now }
{
    name == b"CONTIN".as_slice()
        || name == b"STOP".as_slice()
        || name == b"STOPSH".as_slice()
        || name == b"ERROR".as_slice()
}

fn is_name(terms: &[Term]) -> bool
    ensures { result ≡ is_some (named_alone terms.now) }
{
    named_alone(terms).is_some()
}

fn names_key(terms: &[Term]) -> bool
    ensures { result ≡ names_key (named_alone terms.now) }
{
    match named_alone(terms) {
        Some(name) => is_key(name),
        None => false,
    }
}

/// Whether an expression may stand in a place of this kind.
fn fits_expression(kind: Kind, terms: &[Term]) -> bool
    ensures { result ≡ fits_expression kind terms.now }
{
    match kind {
        Kind::Table | Kind::Format => is_name(terms),
        Kind::Key => names_key(terms),
        Kind::Text => false,
        _ => true,
    }
}

fn are_there(items: &[Option<Expr>]) -> bool
    ensures { result ≡ list_all is_some items.now }
{
    items.iter().all(|item| item.is_some())
}

/// Whether a list may stand in a place of this kind.
fn fits_list(kind: Kind, items: &[Option<Expr>]) -> bool
    ensures { result ≡ fits_list kind items.now }
{
    match kind {
        Kind::Descrs | Kind::Specs => are_there(items),
        Kind::Gotos => true,
        _ => false,
    }
}

fn takes_text(kind: Kind) -> bool
    ensures { result ≡ takes_text kind }
{
    kind == Kind::Text
}

fn fits_place(place: Place, operand: &Operand) -> bool
    ensures { result ≡ fits_place place operand.now }
{
    match operand {
        Operand::Null => place.optional,
        Operand::Expr(expr) => fits_expression(place.kind, expr.terms()),
        Operand::List(items) => fits_list(place.kind, items.items()),
        Operand::Text(_) => takes_text(place.kind),
    }
}

fn fits_places(places: &[Place], operands: &[Operand]) -> bool
    ensures { result ≡ fits_places places.now operands.now }
{
    let Some((place, places)) = places.split_first() else {
        return are_null(operands);
    };
    match operands.split_first() {
        Some((operand, rest)) => fits_place(*place, operand) && fits_places(places, rest),
        None => place.optional && fits_places(places, operands),
    }
}

/// Whether operands have the macro's shape: each has its kind, none but those that may be is null,
/// and none stands beyond the shape but null ones. Where a list is asked for, an expression stands
/// for a list of one item.
#[tactic(auto, unfolding(crate::specs::Shapes::fits))]
pub fn fits(name: Macro, operands: &Operands) -> bool
    ensures { result ≡ fits name operands.now }
{
    fits_places(shape(name).places(), operands.items())
}
