// The macros on lengths, one function each.
ghost use Rattle.std.specs.Prelude.{◌≡◌};
ghost use Rattle.sil_model.specs.Access.{written};
ghost use Rattle.sil_model.specs.Effects.{after_flow};
ghost use Rattle.spec_clauses.specs.SpecifierClauses.{addlg, fshrtn, getlg, putlg, setlc, shifted, shortn};

use crate::fields::{length, second_cell, set_length};
use layout_params::Descr;
use sil_model::{
    Arg, Cells, Flow, a_field, integer, number, place, set_a_field, set_integer, set_v_field,
    wrapped_sum,
};

/// `ADDLG S,D`: S.L := S.L + D.A.
#[tactic(auto, unfolding(crate::specs::SpecifierClauses::addlg))]
pub fn addlg(args: &[Arg], cells: &mut Cells) -> Option<Flow>
    ensures { addlg args.now cells.old ≡ after_flow result cells.new }
{
    let s = place(args, 0)?;
    let d = place(args, 1)?;
    let l = length(cells, s)?;
    let n = a_field(cells, d)?;
    set_length(cells, s, i128::from(l) + i128::from(n))?;
    Some(Flow::Next)
}

/// `FSHRTN S,N`: S.O := S.O + N, and S.L := S.L - N.
#[tactic(auto, unfolding(crate::specs::SpecifierClauses::fshrtn))]
pub fn fshrtn(args: &[Arg], cells: &mut Cells) -> Option<Flow>
    ensures { fshrtn args.now cells.old ≡ after_flow result cells.new }
{
    let s = place(args, 0)?;
    let n = number(args, 1)?;
    let second = second_cell(cells, s);
    shift(cells, second, n)?;
    Some(Flow::Next)
}

/// The second cell at an address gets a number more as its offset, and as many characters less.
fn shift(cells: &mut Cells, at: i64, n: i64) -> Option<()>
    ensures { shifted cells.old at n ≡ written result cells.new }
{
    let Descr { a: o, v: l, .. } = cells.descr(at)?;
    set_a_field(cells, at, wrapped_sum(o, n))?;
    set_v_field(cells, at, i128::from(l) - i128::from(n))
}

/// `GETLG D,S`: D := (S.L, 0, 0).
#[tactic(auto, unfolding(crate::specs::SpecifierClauses::getlg))]
pub fn getlg(args: &[Arg], cells: &mut Cells) -> Option<Flow>
    ensures { getlg args.now cells.old ≡ after_flow result cells.new }
{
    let d = place(args, 0)?;
    let s = place(args, 1)?;
    let l = length(cells, s)?;
    set_integer(cells, d, integer(l))?;
    Some(Flow::Next)
}

/// `PUTLG S,D`: S.L := D.A.
#[tactic(auto, unfolding(crate::specs::SpecifierClauses::putlg))]
pub fn putlg(args: &[Arg], cells: &mut Cells) -> Option<Flow>
    ensures { putlg args.now cells.old ≡ after_flow result cells.new }
{
    let s = place(args, 0)?;
    let d = place(args, 1)?;
    let n = a_field(cells, d)?;
    set_length(cells, s, i128::from(n))?;
    Some(Flow::Next)
}

/// `SETLC S,N`: S.L := N.
#[tactic(auto, unfolding(crate::specs::SpecifierClauses::setlc))]
pub fn setlc(args: &[Arg], cells: &mut Cells) -> Option<Flow>
    ensures { setlc args.now cells.old ≡ after_flow result cells.new }
{
    let s = place(args, 0)?;
    let n = number(args, 1)?;
    set_length(cells, s, i128::from(n))?;
    Some(Flow::Next)
}

/// `SHORTN S,N`: S.L := S.L - N.
#[tactic(auto, unfolding(crate::specs::SpecifierClauses::shortn))]
pub fn shortn(args: &[Arg], cells: &mut Cells) -> Option<Flow>
    ensures { shortn args.now cells.old ≡ after_flow result cells.new }
{
    let s = place(args, 0)?;
    let n = number(args, 1)?;
    let l = length(cells, s)?;
    set_length(cells, s, i128::from(l) - i128::from(n))?;
    Some(Flow::Next)
}
