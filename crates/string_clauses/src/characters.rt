// The characters of specifiers.
ghost use Rattle.std.specs.Prelude.{◌≡◌, ◌+◌, ◌<◌, ◌^◌, IfSome, pos};
ghost use Rattle.sil_model.specs.Access.{set_v_at, set_whole_at, written};
ghost use Rattle.sil_model.specs.Memory.{SameShape};
ghost use Rattle.string_clauses.specs.StringClauses.{chars_written, first_of, length_at, second_of, set_text_at, shorter};

use layout_params::Descr;
use sil_model::{Cells, a_field, set_v_field, v_field};

/// The lesser of two lengths.
pub(crate) fn shorter(x: u64, y: u64) -> u64
    ensures { result ≡ shorter x y }
{
    if x < y { x } else { y }
}

/// The address of a second cell.
#[tactic(auto, unfolding(sil_model::specs::Integers::wrapped_sum))]
pub fn second(cells: &Cells, at: i64) -> i64
    ensures { result ≡ second_of cells.now at }
{
    at.wrapping_add_unsigned(cells.cell_size())
}

/// The length of the specifier at an address, in characters.
pub fn length(cells: &Cells, at: i64) -> Option<u64>
    ensures reads { result ≡ length_at cells.now at }
    ensures small { IfSome result (λ n. n < 2 ^ 48) }
{
    v_field(cells, second(cells, at))
}

/// The address of the first of so many characters of the specifier at an address.
#[tactic(auto, unfolding(sil_model::specs::Integers::wrapped_sum))]
pub fn first(cells: &Cells, count: u64, at: i64) -> Option<i64>
    ensures { result ≡ first_of count cells.now at }
{
    if count == 0 {
        return Some(0);
    }
    let a = a_field(cells, at)?;
    let o = a_field(cells, second(cells, at))?;
    Some(a.wrapping_add(o))
}

/// Makes the length of the specifier at an address a sum.
pub(crate) fn set_length(cells: &mut Cells, at: i64, x: u64, y: u64) -> Option<()>
    ensures { set_v_at cells.old (second_of cells.old at) (pos (x + y)) ≡ written result cells.new }
{
    let next = second(cells, at);
    set_v_field(cells, next, i128::from(x) + i128::from(y))
}

/// Makes the cell at an address a descriptor with 0 as F, where V is within the limit.
#[tactic(auto, unfolding(sil_model::specs::Integers::within))]
pub(crate) fn set_whole(cells: &mut Cells, at: i64, a: i64, v: u64) -> Option<()>
    ensures writes { set_whole_at cells.old at a (pos 0) (pos v) ≡ written result cells.new }
    ensures keeps { SameShape cells.old cells.new }
{
    if v > cells.limits().value_limit {
        return None;
    }
    cells.set_descr(at, Descr { a, f: 0, v })
}

/// Makes the specifier at an address the string of so many characters at another.
pub(crate) fn set_text(cells: &mut Cells, at: i64, first: i64, count: u64) -> Option<()>
    ensures { set_text_at cells.old at first count ≡ written result cells.new }
{
    let next = second(cells, at);
    set_whole(cells, at, first, 0)?;
    set_whole(cells, next, 0, count)
}

/// Writes characters from an address on, one by one.
#[tactic(auto, using(crate::proofs::Turns::texts), unfolding(sil_model::specs::Integers::wrapped_sum))]
pub fn write_chars(cells: &mut Cells, at: i64, text: &[u8]) -> Option<()>
    ensures writes { chars_written at text.now cells.old ≡ written result cells.new }
    ensures keeps { SameShape cells.old cells.new }
{
    let mut next = at;
    for (i, c) in text.iter().enumerate() {
        cells.set_char(next, *c)?;
        next = next.wrapping_add(1);
    }
    Some(())
}
