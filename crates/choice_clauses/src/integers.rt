// The macros on integers, one function each.
ghost use Rattle.std.specs.Prelude.{◌≡◌};
ghost use Rattle.choice_clauses.specs.IntegerClauses.{divide, mnsint, mult, multc, subtrt, sum};
ghost use Rattle.sil_model.specs.Effects.{after_flow};

use crate::results::deliver;
use crate::words::{exact_difference, exact_negative, exact_product, exact_quotient, exact_sum};
use sil_model::{Arg, Cells, Flow, a_field, goto, number, place, set_integer, wrapped_product};

/// `DIVIDE D1,D2,D3,LF,LS`: D2.A by D3.A, cut towards zero.
#[tactic(auto, unfolding(crate::specs::IntegerClauses::divide))]
pub fn divide(args: &[Arg], cells: &mut Cells) -> Option<Flow>
    ensures { divide args.now cells.old ≡ after_flow result cells.new }
{
    let d1 = place(args, 0)?;
    let d2 = place(args, 1)?;
    let d3 = place(args, 2)?;
    let failure = goto(args, 3)?;
    let success = goto(args, 4)?;
    let x = cells.descr(d2)?;
    let y = a_field(cells, d3)?;
    deliver(cells, d1, &x, exact_quotient(x.a, y), failure, success)
}

/// `MNSINT D1,D2,LF,LS`: -D2.A.
#[tactic(auto, unfolding(crate::specs::IntegerClauses::mnsint))]
pub fn mnsint(args: &[Arg], cells: &mut Cells) -> Option<Flow>
    ensures { mnsint args.now cells.old ≡ after_flow result cells.new }
{
    let d1 = place(args, 0)?;
    let d2 = place(args, 1)?;
    let failure = goto(args, 2)?;
    let success = goto(args, 3)?;
    let x = cells.descr(d2)?;
    deliver(cells, d1, &x, exact_negative(x.a), failure, success)
}

/// `MULT D1,D2,D3,LF,LS`: D2.A * D3.A.
#[tactic(auto, unfolding(crate::specs::IntegerClauses::mult))]
pub fn mult(args: &[Arg], cells: &mut Cells) -> Option<Flow>
    ensures { mult args.now cells.old ≡ after_flow result cells.new }
{
    let d1 = place(args, 0)?;
    let d2 = place(args, 1)?;
    let d3 = place(args, 2)?;
    let failure = goto(args, 3)?;
    let success = goto(args, 4)?;
    let x = cells.descr(d2)?;
    let y = a_field(cells, d3)?;
    deliver(cells, d1, &x, exact_product(x.a, y), failure, success)
}

/// `MULTC D1,D2,N`: D1 := (D2.A * N, which wraps, 0, 0).
#[tactic(auto, unfolding(crate::specs::IntegerClauses::multc))]
pub fn multc(args: &[Arg], cells: &mut Cells) -> Option<Flow>
    ensures { multc args.now cells.old ≡ after_flow result cells.new }
{
    let d1 = place(args, 0)?;
    let d2 = place(args, 1)?;
    let n = number(args, 2)?;
    let x = a_field(cells, d2)?;
    set_integer(cells, d1, wrapped_product(x, n))?;
    Some(Flow::Next)
}

/// `SUBTRT D1,D2,D3,LF,LS`: D2.A - D3.A.
#[tactic(auto, unfolding(crate::specs::IntegerClauses::subtrt))]
pub fn subtrt(args: &[Arg], cells: &mut Cells) -> Option<Flow>
    ensures { subtrt args.now cells.old ≡ after_flow result cells.new }
{
    let d1 = place(args, 0)?;
    let d2 = place(args, 1)?;
    let d3 = place(args, 2)?;
    let failure = goto(args, 3)?;
    let success = goto(args, 4)?;
    let x = cells.descr(d2)?;
    let y = a_field(cells, d3)?;
    deliver(cells, d1, &x, exact_difference(x.a, y), failure, success)
}

/// `SUM D1,D2,D3,LF,LS`: D2.A + D3.A.
#[tactic(auto, unfolding(crate::specs::IntegerClauses::sum))]
pub fn sum(args: &[Arg], cells: &mut Cells) -> Option<Flow>
    ensures { sum args.now cells.old ≡ after_flow result cells.new }
{
    let d1 = place(args, 0)?;
    let d2 = place(args, 1)?;
    let d3 = place(args, 2)?;
    let failure = goto(args, 3)?;
    let success = goto(args, 4)?;
    let x = cells.descr(d2)?;
    let y = a_field(cells, d3)?;
    deliver(cells, d1, &x, exact_sum(x.a, y), failure, success)
}
