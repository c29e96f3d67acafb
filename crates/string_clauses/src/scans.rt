// The macros that walk characters until they have an answer, one function each.
ghost use Rattle.std.specs.Prelude.{◌≡◌, ◌+◌, ◌<◌, ◌≤◌, ◌^◌, IfSome};
ghost use Rattle.sil_model.specs.Effects.{after_flow};
ghost use Rattle.string_clauses.specs.StringClauses.{all_blank, all_equal, at_depth, balance, balance_turn, by_numbers, compare_turn, getbal, hash_turn, lexcmp, positive, shorter, trim_turn, trimsp, unbalanced, varid};
ghost use Rattle.string_clauses.specs.Walks.{each, walk};
ghost use Rattle.string_clauses.specs.Bounds.{GoesWithin, IsWithin};

use crate::characters::{first, length, set_length, set_whole, shorter};
use sil_model::{
    Arg, Cells, Flow, Specifier, a_field, goto, integer, place, set_spec, spec, wrapped_product,
};
use std::cmp::Ordering;
use std::ops::ControlFlow;

/// Behind the j-th character, at a depth: the answer is j where it is 0.
fn at_depth(j: u64, depth: u64) -> ControlFlow<Option<u64>, u64>
    ensures value { result ≡ at_depth j depth }
    ensures within { GoesWithin j depth result }
{
    if depth == 0 {
        ControlFlow::Break(Some(j))
    } else {
        ControlFlow::Continue(depth)
    }
}

/// What a character does at a depth, as the j-th.
fn balance(c: u8, j: u64, depth: u64) -> ControlFlow<Option<u64>, u64>
    requires { depth + 1 < 2 ^ 64 }
    ensures value { result ≡ balance c j depth }
    ensures within { GoesWithin j (depth + 1) result }
{
    match c {
        b')' if depth == 0 => ControlFlow::Break(None),
        b')' => at_depth(j, depth - 1),
        b'(' => ControlFlow::Continue(depth + 1),
        _ => at_depth(j, depth),
    }
}

/// Character i at a depth.
#[tactic(auto, unfolding(crate::specs::StringClauses::balance_turn, sil_model::specs::Integers::wrapped_sum))]
fn balance_turn(cells: &Cells, at: i64, i: u64, depth: u64) -> Option<ControlFlow<Option<u64>, u64>>
    requires place { i + 1 < 2 ^ 64 }
    requires depth { depth ≤ i }
    ensures value { result ≡ balance_turn cells.now at i depth }
    ensures within { IfSome result (GoesWithin (i + 1) (i + 1)) }
{
    let c = cells.char_at(at.wrapping_add_unsigned(i))?;
    Some(balance(c, i + 1, depth))
}

/// The least number of characters that are balanced.
#[tactic(auto, using(crate::proofs::Turns::turns))]
fn balanced(cells: &Cells, at: i64, count: u64) -> Option<Option<u64>>
    requires { count < 2 ^ 63 }
    ensures { result ≡ walk (balance_turn cells.now at) unbalanced 0 count 0 }
{
    let mut depth = 0;
    for i in 0..count {
        match balance_turn(cells, at, i, depth)? {
            ControlFlow::Break(found) => return Some(found),
            ControlFlow::Continue(next) => depth = next,
        }
    }
    Some(None)
}

/// So many characters may be visited.
fn positive(n: i64) -> u64
    ensures value { result ≡ positive n }
    ensures small { result < 2 ^ 63 }
{
    if n < 0 { 0 } else { n as u64 }
}

/// `GETBAL S,D,LF,LS`: S.L grows by the least number of characters behind S in which parentheses
/// are balanced, of at most D.A.
#[tactic(auto, unfolding(crate::specs::StringClauses::getbal, sil_model::specs::Integers::wrapped_sum))]
pub fn getbal(args: &[Arg], cells: &mut Cells) -> Option<Flow>
    ensures { getbal args.now cells.old ≡ after_flow result cells.new }
{
    let s = place(args, 0)?;
    let d = place(args, 1)?;
    let failure = goto(args, 2)?;
    let success = goto(args, 3)?;
    let l = length(cells, s)?;
    let count = positive(a_field(cells, d)?);
    let at = first(cells, count, s)?;
    match balanced(cells, at.wrapping_add_unsigned(l), count)? {
        None => Some(failure),
        Some(j) => {
            set_length(cells, s, l, j)?;
            Some(success)
        }
    }
}

/// Characters i of two strings decide where they differ.
#[tactic(auto, unfolding(crate::specs::StringClauses::compare_turn, sil_model::specs::Integers::wrapped_sum))]
fn compare_turn(
    cells: &Cells,
    at1: i64,
    at2: i64,
    i: u64,
    lengths: (u64, u64),
) -> Option<ControlFlow<(u64, u64), (u64, u64)>>
    ensures { result ≡ compare_turn cells.now at1 at2 i lengths }
{
    let x = cells.char_at(at1.wrapping_add_unsigned(i))?;
    let y = cells.char_at(at2.wrapping_add_unsigned(i))?;
    Some(if x == y {
        ControlFlow::Continue(lengths)
    } else {
        ControlFlow::Break((u64::from(x), u64::from(y)))
    })
}

/// The numbers that decide: the first characters that differ, of so many, or the lengths.
#[tactic(auto, using(crate::proofs::Turns::turns))]
fn compared(
    cells: &Cells,
    at1: i64,
    at2: i64,
    count: u64,
    lengths: (u64, u64),
) -> Option<(u64, u64)>
    ensures { result ≡ walk (compare_turn cells.now at1 at2) all_equal 0 count lengths }
{
    let mut numbers = lengths;
    for i in 0..count {
        match compare_turn(cells, at1, at2, i, numbers)? {
            ControlFlow::Break(answer) => return Some(answer),
            ControlFlow::Continue(next) => numbers = next,
        }
    }
    Some(numbers)
}

/// The first where the first number is greater, the second where they are equal, the third where it
/// is less.
fn by_numbers(numbers: (u64, u64), greater: Flow, equal: Flow, less: Flow) -> Flow
    ensures { result ≡ by_numbers numbers greater equal less }
{
    let (x, y) = numbers;
    match x.cmp(&y) {
        Ordering::Greater => greater,
        Ordering::Equal => equal,
        Ordering::Less => less,
    }
}

/// `LEXCMP S1,S2,L1,L2,L3`: the characters in order of codes, pair by pair up to the first that
/// differ; a proper prefix is less.
#[tactic(auto, unfolding(crate::specs::StringClauses::lexcmp))]
pub fn lexcmp(args: &[Arg], cells: &mut Cells) -> Option<Flow>
    ensures { lexcmp args.now cells.old ≡ after_flow result cells.new }
{
    let s1 = place(args, 0)?;
    let s2 = place(args, 1)?;
    let greater = goto(args, 2)?;
    let equal = goto(args, 3)?;
    let less = goto(args, 4)?;
    let l1 = length(cells, s1)?;
    let l2 = length(cells, s2)?;
    let count = shorter(l1, l2);
    let at1 = first(cells, count, s1)?;
    let at2 = first(cells, count, s2)?;
    let numbers = compared(cells, at1, at2, count, (l1, l2))?;
    Some(by_numbers(numbers, greater, equal, less))
}

/// The last of so many characters.
#[tactic(auto, unfolding(crate::specs::StringClauses::trim_turn, sil_model::specs::Integers::wrapped_sum))]
fn trim_turn(cells: &Cells, at: i64, i: u64, left: u64) -> Option<ControlFlow<u64, u64>>
    requires { 0 < left }
    ensures value { result ≡ trim_turn cells.now at i left }
    ensures within { IfSome result (IsWithin left) }
{
    let c = cells.char_at(at.wrapping_add_unsigned(left - 1))?;
    if c == b' ' {
        Some(ControlFlow::Continue(left - 1))
    } else {
        Some(ControlFlow::Break(left))
    }
}

/// The length without the blanks at the end.
#[tactic(auto, using(crate::proofs::Turns::turns))]
fn trimmed(cells: &Cells, at: i64, length: u64) -> Option<u64>
    ensures value { result ≡ walk (trim_turn cells.now at) all_blank 0 length length }
    ensures within { IfSome result (λ n. n ≤ length) }
{
    let mut left = length;
    for i in 0..length {
        match trim_turn(cells, at, i, left)? {
            ControlFlow::Break(answer) => return Some(answer),
            ControlFlow::Continue(next) => left = next,
        }
    }
    Some(left)
}

/// `TRIMSP S1,S2`: S1 := S2 with the length lowered by the blanks at its end.
#[tactic(auto, unfolding(crate::specs::StringClauses::trimsp, sil_model::specs::Integers::wrapped_sum))]
pub fn trimsp(args: &[Arg], cells: &mut Cells) -> Option<Flow>
    ensures { trimsp args.now cells.old ≡ after_flow result cells.new }
{
    let s1 = place(args, 0)?;
    let s2 = place(args, 1)?;
    let s = spec(cells, s2)?;
    let l = trimmed(cells, s.a.wrapping_add(s.o), s.l)?;
    set_spec(cells, s1, &Specifier { l, ..s })?;
    Some(Flow::Next)
}

/// Character i in the hash.
#[tactic(auto, unfolding(crate::specs::StringClauses::hash_turn, sil_model::specs::Integers::wrapped_sum))]
fn hash_turn(cells: &Cells, at: i64, i: u64, h: u64) -> Option<u64>
    requires { h < 2 ^ 31 }
    ensures value { result ≡ hash_turn cells.now at i h }
    ensures small { IfSome result (λ next. next < 2 ^ 31) }
{
    let c = cells.char_at(at.wrapping_add_unsigned(i))?;
    Some((131 * h + u64::from(c)) % 0x8000_0000)
}

/// The hash of so many characters.
#[tactic(auto, using(crate::proofs::Turns::turns))]
fn hash(cells: &Cells, at: i64, count: u64) -> Option<u64>
    ensures value { result ≡ each (hash_turn cells.now at) 0 count 0 }
    ensures small { IfSome result (λ h. h < 2 ^ 31) }
{
    let mut h = 0;
    for i in 0..count {
        h = hash_turn(cells, at, i, h)?;
    }
    Some(h)
}

/// `VARID D,S`: of the hash of the characters the bucket, of so many, goes to A as a distance, and
/// what is above to V.
#[tactic(auto, unfolding(crate::specs::StringClauses::varid))]
pub fn varid(buckets: u64, args: &[Arg], cells: &mut Cells) -> Option<Flow>
    requires { 0 < buckets }
    ensures { varid buckets args.now cells.old ≡ after_flow result cells.new }
{
    let d = place(args, 0)?;
    let s = place(args, 1)?;
    let l = length(cells, s)?;
    let at = first(cells, l, s)?;
    let h = hash(cells, at, l)?;
    let distance = wrapped_product(integer(cells.cell_size()), integer(h % buckets));
    set_whole(cells, d, distance, h / buckets % 32768)?;
    Some(Flow::Next)
}
