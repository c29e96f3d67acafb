// Operands of statements, as what they are.
ghost use Rattle.std.specs.Prelude.{◌≡◌};
ghost use Rattle.std.specs.Option.{option_copied};
ghost use Rattle.sil_model.specs.Arguments.{place_at, number_at, flag_at, format_at, goto_at, places_at, gotos_at, maybe_place_at, maybe_number_at, maybe_places_at};

use crate::program::{Arg, Flow};

/// The place that the operand of a number is, counted from 0.
pub fn place(args: &[Arg], i: usize) -> Option<i64>
    ensures { result ≡ place_at args.now i }
{
    match args.get(i)? {
        Arg::Place(at) => Some(*at),
        _ => None,
    }
}

/// The number that the operand of a number is, counted from 0.
pub fn number(args: &[Arg], i: usize) -> Option<i64>
    ensures { result ≡ number_at args.now i }
{
    match args.get(i)? {
        Arg::Number(n) => Some(*n),
        _ => None,
    }
}

/// The flags that the operand of a number is.
pub fn flag(args: &[Arg], i: usize) -> Option<u32>
    ensures { result ≡ flag_at args.now i }
{
    match args.get(i)? {
        Arg::Flag(flags) => Some(*flags),
        _ => None,
    }
}

/// The text of the format that the operand of a number is.
pub fn format_text(args: &[Arg], i: usize) -> Option<&[u8]>
    ensures { option_copied result ≡ format_at args.now i }
{
    match args.get(i)? {
        Arg::Format(text) => Some(text.bytes()),
        _ => None,
    }
}

/// Where the location that the operand of a number is leads.
pub fn goto(args: &[Arg], i: usize) -> Option<Flow>
    ensures { result ≡ goto_at args.now i }
{
    match args.get(i)? {
        Arg::Goto(Some(k)) => Some(Flow::To(*k)),
        Arg::Goto(None) => Some(Flow::Next),
        _ => None,
    }
}

/// The list of places that the operand of a number is.
pub fn place_list(args: &[Arg], i: usize) -> Option<&[i64]>
    ensures { option_copied result ≡ places_at args.now i }
{
    match args.get(i)? {
        Arg::Places(places) => Some(places.items()),
        _ => None,
    }
}

/// The list of locations that the operand of a number is.
pub fn goto_list(args: &[Arg], i: usize) -> Option<&[Option<u32>]>
    ensures { option_copied result ≡ gotos_at args.now i }
{
    match args.get(i)? {
        Arg::Gotos(locations) => Some(locations.items()),
        _ => None,
    }
}

/// The place that the operand of a number is, or none where it is null.
pub fn maybe_place(args: &[Arg], i: usize) -> Option<Option<i64>>
    ensures { result ≡ maybe_place_at args.now i }
{
    match args.get(i)? {
        Arg::Absent => Some(None),
        Arg::Place(at) => Some(Some(*at)),
        _ => None,
    }
}

/// The number that the operand of a number is, or none where it is null.
pub fn maybe_number(args: &[Arg], i: usize) -> Option<Option<i64>>
    ensures { result ≡ maybe_number_at args.now i }
{
    match args.get(i)? {
        Arg::Absent => Some(None),
        Arg::Number(n) => Some(Some(*n)),
        _ => None,
    }
}

/// The list of places that the operand of a number is, without items where it is null.
pub fn maybe_place_list(args: &[Arg], i: usize) -> Option<&[i64]>
    ensures { option_copied result ≡ maybe_places_at args.now i }
{
    match args.get(i)? {
        Arg::Absent => Some(&[]),
        Arg::Places(places) => Some(places.items()),
        _ => None,
    }
}
