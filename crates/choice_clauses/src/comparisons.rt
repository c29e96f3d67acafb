// The macros that compare, one function each.
ghost use Rattle.std.specs.Prelude.{◌≡◌};
ghost use Rattle.choice_clauses.specs.ComparisonClauses.{acomp, acompc, aeql, aeqlc, aeqlic, chkval, deql, lcomp, leqlc, testf, testfi, vcmpic, veql, veqlc};
ghost use Rattle.sil_model.specs.Effects.{after_flow};

use crate::choices::{by_equality, by_flags, by_order, by_sameness, length};
use sil_model::{
    Arg, Cells, Flow, a_field, f_field, flag, goto, integer, number, place, v_field, wrapped_sum,
};

/// `ACOMP D1,D2,L1,L2,L3`: D1.A with D2.A.
#[tactic(auto, unfolding(crate::specs::ComparisonClauses::acomp))]
pub fn acomp(args: &[Arg], cells: &Cells) -> Option<Flow>
    ensures { acomp args.now cells.now ≡ after_flow result cells.now }
{
    let d1 = place(args, 0)?;
    let d2 = place(args, 1)?;
    let greater = goto(args, 2)?;
    let equal = goto(args, 3)?;
    let less = goto(args, 4)?;
    let x = a_field(cells, d1)?;
    let y = a_field(cells, d2)?;
    Some(by_order(x, y, greater, equal, less))
}

/// `ACOMPC D,N,L1,L2,L3`: D.A with N.
#[tactic(auto, unfolding(crate::specs::ComparisonClauses::acompc))]
pub fn acompc(args: &[Arg], cells: &Cells) -> Option<Flow>
    ensures { acompc args.now cells.now ≡ after_flow result cells.now }
{
    let d = place(args, 0)?;
    let n = number(args, 1)?;
    let greater = goto(args, 2)?;
    let equal = goto(args, 3)?;
    let less = goto(args, 4)?;
    let x = a_field(cells, d)?;
    Some(by_order(x, n, greater, equal, less))
}

/// `AEQL D1,D2,L1,L2`: D1.A with D2.A.
#[tactic(auto, unfolding(crate::specs::ComparisonClauses::aeql))]
pub fn aeql(args: &[Arg], cells: &Cells) -> Option<Flow>
    ensures { aeql args.now cells.now ≡ after_flow result cells.now }
{
    let d1 = place(args, 0)?;
    let d2 = place(args, 1)?;
    let unequal = goto(args, 2)?;
    let equal = goto(args, 3)?;
    let x = a_field(cells, d1)?;
    let y = a_field(cells, d2)?;
    Some(by_equality(x, y, unequal, equal))
}

/// `AEQLC D,N,L1,L2`: D.A with N.
#[tactic(auto, unfolding(crate::specs::ComparisonClauses::aeqlc))]
pub fn aeqlc(args: &[Arg], cells: &Cells) -> Option<Flow>
    ensures { aeqlc args.now cells.now ≡ after_flow result cells.now }
{
    let d = place(args, 0)?;
    let n = number(args, 1)?;
    let unequal = goto(args, 2)?;
    let equal = goto(args, 3)?;
    let x = a_field(cells, d)?;
    Some(by_equality(x, n, unequal, equal))
}

/// `AEQLIC D,N1,N2,L1,L2`: [D.A + N1].A with N2.
#[tactic(auto, unfolding(crate::specs::ComparisonClauses::aeqlic))]
pub fn aeqlic(args: &[Arg], cells: &Cells) -> Option<Flow>
    ensures { aeqlic args.now cells.now ≡ after_flow result cells.now }
{
    let d = place(args, 0)?;
    let n1 = number(args, 1)?;
    let n2 = number(args, 2)?;
    let unequal = goto(args, 3)?;
    let equal = goto(args, 4)?;
    let at = a_field(cells, d)?;
    let x = a_field(cells, wrapped_sum(at, n1))?;
    Some(by_equality(x, n2, unequal, equal))
}

/// `CHKVAL D1,D2,S,L1,L2,L3`: D2.A + S.L, which wraps, with D1.A.
#[tactic(auto, unfolding(crate::specs::ComparisonClauses::chkval))]
pub fn chkval(args: &[Arg], cells: &Cells) -> Option<Flow>
    ensures { chkval args.now cells.now ≡ after_flow result cells.now }
{
    let d1 = place(args, 0)?;
    let d2 = place(args, 1)?;
    let s = place(args, 2)?;
    let greater = goto(args, 3)?;
    let equal = goto(args, 4)?;
    let less = goto(args, 5)?;
    let y = a_field(cells, d1)?;
    let x = a_field(cells, d2)?;
    let l = length(cells, s)?;
    Some(by_order(wrapped_sum(x, integer(l)), y, greater, equal, less))
}

/// `DEQL D1,D2,L1,L2`: D1 with D2: their A, F and V.
#[tactic(auto, unfolding(crate::specs::ComparisonClauses::deql))]
pub fn deql(args: &[Arg], cells: &Cells) -> Option<Flow>
    ensures { deql args.now cells.now ≡ after_flow result cells.now }
{
    let d1 = place(args, 0)?;
    let d2 = place(args, 1)?;
    let unequal = goto(args, 2)?;
    let equal = goto(args, 3)?;
    let x = cells.descr(d1)?;
    let y = cells.descr(d2)?;
    Some(by_sameness(&x, &y, unequal, equal))
}

/// `LCOMP S1,S2,L1,L2,L3`: S1.L with S2.L.
#[tactic(auto, unfolding(crate::specs::ComparisonClauses::lcomp))]
pub fn lcomp(args: &[Arg], cells: &Cells) -> Option<Flow>
    ensures { lcomp args.now cells.now ≡ after_flow result cells.now }
{
    let s1 = place(args, 0)?;
    let s2 = place(args, 1)?;
    let greater = goto(args, 2)?;
    let equal = goto(args, 3)?;
    let less = goto(args, 4)?;
    let x = length(cells, s1)?;
    let y = length(cells, s2)?;
    Some(by_order(integer(x), integer(y), greater, equal, less))
}

/// `LEQLC S,N,L1,L2`: S.L with N.
#[tactic(auto, unfolding(crate::specs::ComparisonClauses::leqlc))]
pub fn leqlc(args: &[Arg], cells: &Cells) -> Option<Flow>
    ensures { leqlc args.now cells.now ≡ after_flow result cells.now }
{
    let s = place(args, 0)?;
    let n = number(args, 1)?;
    let unequal = goto(args, 2)?;
    let equal = goto(args, 3)?;
    let x = length(cells, s)?;
    Some(by_equality(integer(x), n, unequal, equal))
}

/// `TESTF D,F,L1,L2`: to L2 where D.F has all bits of F, else to L1.
#[tactic(auto, unfolding(crate::specs::ComparisonClauses::testf))]
pub fn testf(args: &[Arg], cells: &Cells) -> Option<Flow>
    ensures { testf args.now cells.now ≡ after_flow result cells.now }
{
    let d = place(args, 0)?;
    let flags = flag(args, 1)?;
    let lacking = goto(args, 2)?;
    let having = goto(args, 3)?;
    let f = f_field(cells, d)?;
    Some(by_flags(f, flags, lacking, having))
}

/// `TESTFI D,F,L1,L2`: to L2 where [D.A].F has all bits of F, else to L1.
#[tactic(auto, unfolding(crate::specs::ComparisonClauses::testfi))]
pub fn testfi(args: &[Arg], cells: &Cells) -> Option<Flow>
    ensures { testfi args.now cells.now ≡ after_flow result cells.now }
{
    let d = place(args, 0)?;
    let flags = flag(args, 1)?;
    let lacking = goto(args, 2)?;
    let having = goto(args, 3)?;
    let at = a_field(cells, d)?;
    let f = f_field(cells, at)?;
    Some(by_flags(f, flags, lacking, having))
}

/// `VCMPIC D1,N,D2,L1,L2,L3`: [D1.A + N].V with D2.V.
#[tactic(auto, unfolding(crate::specs::ComparisonClauses::vcmpic))]
pub fn vcmpic(args: &[Arg], cells: &Cells) -> Option<Flow>
    ensures { vcmpic args.now cells.now ≡ after_flow result cells.now }
{
    let d1 = place(args, 0)?;
    let n = number(args, 1)?;
    let d2 = place(args, 2)?;
    let greater = goto(args, 3)?;
    let equal = goto(args, 4)?;
    let less = goto(args, 5)?;
    let at = a_field(cells, d1)?;
    let x = v_field(cells, wrapped_sum(at, n))?;
    let y = v_field(cells, d2)?;
    Some(by_order(integer(x), integer(y), greater, equal, less))
}

/// `VEQL D1,D2,L1,L2`: D1.V with D2.V.
#[tactic(auto, unfolding(crate::specs::ComparisonClauses::veql))]
pub fn veql(args: &[Arg], cells: &Cells) -> Option<Flow>
    ensures { veql args.now cells.now ≡ after_flow result cells.now }
{
    let d1 = place(args, 0)?;
    let d2 = place(args, 1)?;
    let unequal = goto(args, 2)?;
    let equal = goto(args, 3)?;
    let x = v_field(cells, d1)?;
    let y = v_field(cells, d2)?;
    Some(by_equality(integer(x), integer(y), unequal, equal))
}

/// `VEQLC D,N,L1,L2`: D.V with N.
#[tactic(auto, unfolding(crate::specs::ComparisonClauses::veqlc))]
pub fn veqlc(args: &[Arg], cells: &Cells) -> Option<Flow>
    ensures { veqlc args.now cells.now ≡ after_flow result cells.now }
{
    let d = place(args, 0)?;
    let n = number(args, 1)?;
    let unequal = goto(args, 2)?;
    let equal = goto(args, 3)?;
    let x = v_field(cells, d)?;
    Some(by_equality(integer(x), n, unequal, equal))
}
