// The macros between integers and characters, one function each.
ghost use Rattle.std.specs.Prelude.{◌≡◌, ◌+◌, ◌<◌, ◌≤◌, ◌^◌, true, false, zero, suc, IfSome, length};
ghost use Rattle.std.specs.Fmt.{signed_decimal};
ghost use Rattle.sil_model.specs.Effects.{after_flow};
ghost use Rattle.string_clauses.specs.StringClauses.{counted, digit_behind, digit_turn, digits_read, integer_from, integer_read, integer_set, intspc, is_digit, signed, spcint};
ghost use Rattle.string_clauses.specs.Walks.{walk};
ghost use Rattle.string_clauses.specs.Bounds.{IsWithin, IsAnswerWithin};

use crate::characters::{first, length, set_text, set_whole, write_chars};
use itoa::Buffer;
use sil_model::{Arg, Cells, Flow, a_field, goto, place};
use std::ops::ControlFlow;

/// `INTSPC S,D`: the decimal text of D.A into the hidden buffer; S := (its address, 0, 0, 0, its
/// length).
#[tactic(auto, unfolding(crate::specs::StringClauses::intspc))]
pub fn intspc(hidden: i64, args: &[Arg], cells: &mut Cells) -> Option<Flow>
    ensures { intspc hidden args.now cells.old ≡ after_flow result cells.new }
{
    let s = place(args, 0)?;
    let d = place(args, 1)?;
    let a = a_field(cells, d)?;
    let mut buffer = Buffer::new();
    let text = buffer.format(a).as_bytes();
    write_chars(cells, hidden, text)?;
    set_text(cells, s, hidden, text.len() as u64)?;
    Some(Flow::Next)
}

/// A decimal digit behind those before, up to a limit.
fn digit_behind(limit: u64, c: u8, n: u64) -> ControlFlow<Option<u64>, u64>
    ensures value { result ≡ digit_behind limit c n }
    ensures within { IsAnswerWithin limit result }
{
    if !c.is_ascii_digit() {
        return ControlFlow::Break(None);
    }
    let next = 10 * u128::from(n) + u128::from(c - b'0');
    if next <= u128::from(limit) {
        ControlFlow::Continue(next as u64)
    } else {
        ControlFlow::Break(None)
    }
}

/// Character i behind the digits before.
#[tactic(auto, unfolding(crate::specs::StringClauses::digit_turn, sil_model::specs::Integers::wrapped_sum))]
fn digit_turn(
    cells: &Cells,
    at: i64,
    limit: u64,
    i: u64,
    n: u64,
) -> Option<ControlFlow<Option<u64>, u64>>
    ensures value { result ≡ digit_turn cells.now at limit i n }
    ensures within { IfSome result (IsAnswerWithin limit) }
{
    let c = cells.char_at(at.wrapping_add_unsigned(i))?;
    Some(digit_behind(limit, c, n))
}

/// The number of so many digits, up to a limit.
#[tactic(auto, using(crate::proofs::Turns::turns))]
fn digits(cells: &Cells, at: i64, limit: u64, from: u64, count: u64) -> Option<Option<u64>>
    requires { from + count < 2 ^ 64 }
    ensures value { result ≡ digits_read cells.now at limit from count }
    ensures within { IfSome result (λ found. IfSome found (λ n. n ≤ limit)) }
{
    let mut n = 0;
    for i in from..from + count {
        match digit_turn(cells, at, limit, i, n)? {
            ControlFlow::Break(found) => return Some(found),
            ControlFlow::Continue(next) => n = next,
        }
    }
    Some(Some(n))
}

/// A number that isn't negative, up to 2^63 - 1.
fn positive(n: Option<u64>) -> Option<i64>
    requires { IfSome n (λ x. x < 2 ^ 63) }
    ensures { result ≡ signed false n }
{
    Some(n? as i64)
}

/// The negative of a number, up to 2^63.
fn negative(n: Option<u64>) -> Option<i64>
    requires { IfSome n (λ x. x ≤ 2 ^ 63) }
    ensures { result ≡ signed true n }
{
    Some((-i128::from(n?)) as i64)
}

/// The integer of a first character and so many more.
fn integer_from(cells: &Cells, at: i64, more: u64, c: u8) -> Option<Option<i64>>
    requires { more + 1 < 2 ^ 64 }
    ensures { result ≡ integer_from cells.now at more c }
{
    const MOST: u64 = 0x7fff_ffff_ffff_ffff;
    match c {
        b'-' | b'+' if more == 0 => Some(None),
        b'-' => Some(negative(digits(cells, at, MOST + 1, 1, more)?)),
        b'+' => Some(positive(digits(cells, at, MOST, 1, more)?)),
        _ => Some(positive(digits(cells, at, MOST, 0, more + 1)?)),
    }
}

/// The integer that so many characters spell.
#[tactic(auto, unfolding(crate::specs::StringClauses::integer_read, sil_model::specs::Integers::wrapped_sum))]
fn integer_read(cells: &Cells, at: i64, count: u64) -> Option<Option<i64>>
    ensures { result ≡ integer_read cells.now at count }
{
    if count == 0 {
        return Some(Some(0));
    }
    let c = cells.char_at(at.wrapping_add(0))?;
    integer_from(cells, at, count - 1, c)
}

/// `SPCINT D,S,LF,LS`: D := (the integer that S spells, 0, the value of I).
#[tactic(auto, unfolding(crate::specs::StringClauses::spcint))]
pub fn spcint(int_code: Option<u64>, args: &[Arg], cells: &mut Cells) -> Option<Flow>
    ensures { spcint int_code args.now cells.old ≡ after_flow result cells.new }
{
    let code = int_code?;
    let d = place(args, 0)?;
    let s = place(args, 1)?;
    let failure = goto(args, 2)?;
    let success = goto(args, 3)?;
    let l = length(cells, s)?;
    let at = first(cells, l, s)?;
    match integer_read(cells, at, l)? {
        None => Some(failure),
        Some(a) => {
            set_whole(cells, d, a, code)?;
            Some(success)
        }
    }
}
