// The macros that copy characters, one function each.
ghost use Rattle.std.specs.Prelude.{◌≡◌, ◌<◌, ◌^◌, length, slice_get};
ghost use Rattle.sil_model.specs.Access.{written};
ghost use Rattle.sil_model.specs.Effects.{after_flow};
ghost use Rattle.sil_model.specs.Memory.{SameShape};
ghost use Rattle.string_clauses.specs.StringClauses.{apdsp, copy_char, date, nothing_stands, pair_turn, replace_turn, replaced, replaced_all, rplace};
ghost use Rattle.string_clauses.specs.Walks.{each, left_by};

use crate::characters::{first, length, set_length, set_text, write_chars};
use sil_model::{Arg, Cells, Flow, place, spec};

/// What stands for each character, where something does.
type Replacements = [Option<u8>; 256];

/// Copies character i.
#[tactic(auto, unfolding(crate::specs::StringClauses::copy_char, sil_model::specs::Integers::wrapped_sum))]
fn copy_char(cells: &mut Cells, to: i64, from: i64, i: u64) -> Option<()>
    ensures copies { copy_char to from i cells.old ≡ written result cells.new }
    ensures keeps { SameShape cells.old cells.new }
{
    let c = cells.char_at(from.wrapping_add_unsigned(i))?;
    cells.set_char(to.wrapping_add_unsigned(i), c)
}

/// Copies characters one by one.
#[tactic(auto, using(crate::proofs::Turns::turns))]
fn copy_chars(cells: &mut Cells, to: i64, from: i64, count: u64) -> Option<()>
    ensures copies { each (copy_char to from) 0 count cells.old ≡ written result cells.new }
    ensures keeps { SameShape cells.old cells.new }
{
    for i in 0..count {
        copy_char(cells, to, from, i)?;
    }
    Some(())
}

/// `APDSP S1,S2`: the characters of S2 behind those of S1, lowest first; then S1.L := S1.L + S2.L.
#[tactic(auto, unfolding(crate::specs::StringClauses::apdsp, sil_model::specs::Integers::wrapped_sum))]
pub fn apdsp(args: &[Arg], cells: &mut Cells) -> Option<Flow>
    ensures { apdsp args.now cells.old ≡ after_flow result cells.new }
{
    let s1 = place(args, 0)?;
    let s2 = place(args, 1)?;
    let x = spec(cells, s1)?;
    let y = spec(cells, s2)?;
    let to = x.a.wrapping_add(x.o).wrapping_add_unsigned(x.l);
    copy_chars(cells, to, y.a.wrapping_add(y.o), y.l)?;
    set_length(cells, s1, x.l, y.l)?;
    Some(Flow::Next)
}

/// `DATE S`: the date into the hidden buffer; S := (its address, 0, 0, 0, 8).
#[tactic(auto, unfolding(crate::specs::StringClauses::date))]
pub fn date(hidden: i64, text: &[u8], args: &[Arg], cells: &mut Cells) -> Option<Flow>
    ensures { date hidden text.now args.now cells.old ≡ after_flow result cells.new }
{
    let s = place(args, 0)?;
    write_chars(cells, hidden, text)?;
    set_text(cells, s, hidden, text.len() as u64)?;
    Some(Flow::Next)
}

/// Enters what stands for character i.
#[tactic(auto, unfolding(crate::specs::StringClauses::pair_turn, sil_model::specs::Integers::wrapped_sum))]
fn enter_pair(cells: &Cells, at2: i64, at3: i64, i: u64, table: &mut Replacements) -> Option<()>
    ensures { pair_turn cells.now at2 at3 i table.old ≡ left_by result table.new }
{
    let x = cells.char_at(at2.wrapping_add_unsigned(i))?;
    let y = cells.char_at(at3.wrapping_add_unsigned(i))?;
    table[usize::from(x)] = Some(y);
    Some(())
}

/// Enters what stands for so many characters.
#[tactic(auto, using(crate::proofs::Turns::turns))]
fn enter_pairs(
    cells: &Cells,
    at2: i64,
    at3: i64,
    count: u64,
    table: &mut Replacements,
) -> Option<()>
    ensures { each (pair_turn cells.now at2 at3) 0 count table.old ≡ left_by result table.new }
{
    for i in 0..count {
        enter_pair(cells, at2, at3, i, table)?;
    }
    Some(())
}

/// Replaces character i, where something stands for it.
#[tactic(auto, unfolding(crate::specs::StringClauses::replace_turn, sil_model::specs::Integers::wrapped_sum))]
fn replace_char(cells: &mut Cells, table: &Replacements, at: i64, i: u64) -> Option<()>
    ensures replaces { replace_turn table.now at i cells.old ≡ written result cells.new }
    ensures keeps { SameShape cells.old cells.new }
{
    let place = at.wrapping_add_unsigned(i);
    let c = cells.char_at(place)?;
    match table[usize::from(c)] {
        None => Some(()),
        Some(y) => cells.set_char(place, y),
    }
}

/// Replaces characters one by one.
#[tactic(auto, using(crate::proofs::Turns::turns))]
fn replace_chars(cells: &mut Cells, table: &Replacements, at: i64, count: u64) -> Option<()>
    ensures replaces { each (replace_turn table.now at) 0 count cells.old ≡ written result cells.new }
    ensures keeps { SameShape cells.old cells.new }
{
    for i in 0..count {
        replace_char(cells, table, at, i)?;
    }
    Some(())
}

/// Replaces the characters of the first string that stand in the second by those of the third;
/// a string is the address of its first character and its length.
fn replace_all(cells: &mut Cells, x: (i64, u64), y: (i64, u64), z: (i64, u64)) -> Option<Flow>
    ensures { replaced_all cells.old x.0 x.1 y.0 y.1 z.0 z.1 ≡ after_flow result cells.new }
{
    if y.1 != z.1 {
        return None;
    }
    let mut table = [None; 256];
    enter_pairs(cells, y.0, z.0, y.1, &mut table)?;
    replace_chars(cells, &table, x.0, x.1)?;
    Some(Flow::Next)
}

/// `RPLACE S1,S2,S3`: each character of S1 that stands in S2 is replaced by the one of S3 at the
/// last place where S2 has it.
#[tactic(auto, unfolding(crate::specs::StringClauses::rplace))]
pub fn rplace(args: &[Arg], cells: &mut Cells) -> Option<Flow>
    ensures { rplace args.now cells.old ≡ after_flow result cells.new }
{
    let s1 = place(args, 0)?;
    let s2 = place(args, 1)?;
    let s3 = place(args, 2)?;
    let l1 = length(cells, s1)?;
    let at1 = first(cells, l1, s1)?;
    let l2 = length(cells, s2)?;
    let at2 = first(cells, l2, s2)?;
    let l3 = length(cells, s3)?;
    let at3 = first(cells, l3, s3)?;
    replace_all(cells, (at1, l1), (at2, l2), (at3, l3))
}
