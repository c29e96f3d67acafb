// The macros on descriptors, one function each.
ghost use Rattle.std.specs.Prelude.{◌≡◌};
ghost use Rattle.descr_clauses.specs.DescriptorClauses.{adjust, decra, getac, getd, getdc, getsiz, incra, incrv, mova, movd, movdic, movv, putac, putd, putdc, putvc, resetf, rsetfi, setac, setav, setf, setfi, setsiz, setva, setvc};
ghost use Rattle.sil_model.specs.Effects.{after_flow};

use crate::words::bits_without;
use sil_model::{
    Arg, Cells, Flow, a_field, f_field, flag, integer, number, place, set_a_field, set_f_field,
    set_integer, set_v_field, v_field, wrapped_difference, wrapped_sum,
};

/// `ADJUST D1,D2,D3`: D1.A := [D2.A].A + D3.A.
#[tactic(auto, unfolding(crate::specs::DescriptorClauses::adjust))]
pub fn adjust(args: &[Arg], cells: &mut Cells) -> Option<Flow>
    ensures { adjust args.now cells.old ≡ after_flow result cells.new }
{
    let d1 = place(args, 0)?;
    let d2 = place(args, 1)?;
    let d3 = place(args, 2)?;
    let at = a_field(cells, d2)?;
    let a = a_field(cells, at)?;
    let n = a_field(cells, d3)?;
    set_a_field(cells, d1, wrapped_sum(a, n))?;
    Some(Flow::Next)
}

/// `DECRA D,N`: D.A := D.A - N.
#[tactic(auto, unfolding(crate::specs::DescriptorClauses::decra))]
pub fn decra(args: &[Arg], cells: &mut Cells) -> Option<Flow>
    ensures { decra args.now cells.old ≡ after_flow result cells.new }
{
    let d = place(args, 0)?;
    let n = number(args, 1)?;
    let a = a_field(cells, d)?;
    set_a_field(cells, d, wrapped_difference(a, n))?;
    Some(Flow::Next)
}

/// `GETAC D1,D2,N`: D1.A := [D2.A + N].A.
#[tactic(auto, unfolding(crate::specs::DescriptorClauses::getac))]
pub fn getac(args: &[Arg], cells: &mut Cells) -> Option<Flow>
    ensures { getac args.now cells.old ≡ after_flow result cells.new }
{
    let d1 = place(args, 0)?;
    let d2 = place(args, 1)?;
    let n = number(args, 2)?;
    let at = a_field(cells, d2)?;
    let a = a_field(cells, wrapped_sum(at, n))?;
    set_a_field(cells, d1, a)?;
    Some(Flow::Next)
}

/// `GETD D1,D2,D3`: D1 := [D2.A + D3.A].
#[tactic(auto, unfolding(crate::specs::DescriptorClauses::getd))]
pub fn getd(args: &[Arg], cells: &mut Cells) -> Option<Flow>
    ensures { getd args.now cells.old ≡ after_flow result cells.new }
{
    let d1 = place(args, 0)?;
    let d2 = place(args, 1)?;
    let d3 = place(args, 2)?;
    let at = a_field(cells, d2)?;
    let n = a_field(cells, d3)?;
    let value = cells.descr(wrapped_sum(at, n))?;
    cells.set_descr(d1, value)?;
    Some(Flow::Next)
}

/// `GETDC D1,D2,N`: D1 := [D2.A + N].
#[tactic(auto, unfolding(crate::specs::DescriptorClauses::getdc))]
pub fn getdc(args: &[Arg], cells: &mut Cells) -> Option<Flow>
    ensures { getdc args.now cells.old ≡ after_flow result cells.new }
{
    let d1 = place(args, 0)?;
    let d2 = place(args, 1)?;
    let n = number(args, 2)?;
    let at = a_field(cells, d2)?;
    let value = cells.descr(wrapped_sum(at, n))?;
    cells.set_descr(d1, value)?;
    Some(Flow::Next)
}

/// `GETSIZ D1,D2`: D1 := ([D2.A].V, 0, 0).
#[tactic(auto, unfolding(crate::specs::DescriptorClauses::getsiz))]
pub fn getsiz(args: &[Arg], cells: &mut Cells) -> Option<Flow>
    ensures { getsiz args.now cells.old ≡ after_flow result cells.new }
{
    let d1 = place(args, 0)?;
    let d2 = place(args, 1)?;
    let at = a_field(cells, d2)?;
    let v = v_field(cells, at)?;
    set_integer(cells, d1, integer(v))?;
    Some(Flow::Next)
}

/// `INCRA D,N`: D.A := D.A + N.
#[tactic(auto, unfolding(crate::specs::DescriptorClauses::incra))]
pub fn incra(args: &[Arg], cells: &mut Cells) -> Option<Flow>
    ensures { incra args.now cells.old ≡ after_flow result cells.new }
{
    let d = place(args, 0)?;
    let n = number(args, 1)?;
    let a = a_field(cells, d)?;
    set_a_field(cells, d, wrapped_sum(a, n))?;
    Some(Flow::Next)
}

/// `INCRV D,N`: D.V := D.V + N.
#[tactic(auto, unfolding(crate::specs::DescriptorClauses::incrv))]
pub fn incrv(args: &[Arg], cells: &mut Cells) -> Option<Flow>
    ensures { incrv args.now cells.old ≡ after_flow result cells.new }
{
    let d = place(args, 0)?;
    let n = number(args, 1)?;
    let v = v_field(cells, d)?;
    set_v_field(cells, d, i128::from(v) + i128::from(n))?;
    Some(Flow::Next)
}

/// `MOVA D1,D2`: D1.A := D2.A.
#[tactic(auto, unfolding(crate::specs::DescriptorClauses::mova))]
pub fn mova(args: &[Arg], cells: &mut Cells) -> Option<Flow>
    ensures { mova args.now cells.old ≡ after_flow result cells.new }
{
    let d1 = place(args, 0)?;
    let d2 = place(args, 1)?;
    let a = a_field(cells, d2)?;
    set_a_field(cells, d1, a)?;
    Some(Flow::Next)
}

/// `MOVD D1,D2`: D1 := D2.
#[tactic(auto, unfolding(crate::specs::DescriptorClauses::movd))]
pub fn movd(args: &[Arg], cells: &mut Cells) -> Option<Flow>
    ensures { movd args.now cells.old ≡ after_flow result cells.new }
{
    let d1 = place(args, 0)?;
    let d2 = place(args, 1)?;
    let value = cells.descr(d2)?;
    cells.set_descr(d1, value)?;
    Some(Flow::Next)
}

/// `MOVDIC D1,N1,D2,N2`: [D1.A + N1] := [D2.A + N2].
#[tactic(auto, unfolding(crate::specs::DescriptorClauses::movdic))]
pub fn movdic(args: &[Arg], cells: &mut Cells) -> Option<Flow>
    ensures { movdic args.now cells.old ≡ after_flow result cells.new }
{
    let d1 = place(args, 0)?;
    let n1 = number(args, 1)?;
    let d2 = place(args, 2)?;
    let n2 = number(args, 3)?;
    let to = a_field(cells, d1)?;
    let from = a_field(cells, d2)?;
    let value = cells.descr(wrapped_sum(from, n2))?;
    cells.set_descr(wrapped_sum(to, n1), value)?;
    Some(Flow::Next)
}

/// `MOVV D1,D2`: D1.V := D2.V.
#[tactic(auto, unfolding(crate::specs::DescriptorClauses::movv))]
pub fn movv(args: &[Arg], cells: &mut Cells) -> Option<Flow>
    ensures { movv args.now cells.old ≡ after_flow result cells.new }
{
    let d1 = place(args, 0)?;
    let d2 = place(args, 1)?;
    let v = v_field(cells, d2)?;
    set_v_field(cells, d1, i128::from(v))?;
    Some(Flow::Next)
}

/// `PUTAC D1,N,D2`: [D1.A + N].A := D2.A.
#[tactic(auto, unfolding(crate::specs::DescriptorClauses::putac))]
pub fn putac(args: &[Arg], cells: &mut Cells) -> Option<Flow>
    ensures { putac args.now cells.old ≡ after_flow result cells.new }
{
    let d1 = place(args, 0)?;
    let n = number(args, 1)?;
    let d2 = place(args, 2)?;
    let at = a_field(cells, d1)?;
    let a = a_field(cells, d2)?;
    set_a_field(cells, wrapped_sum(at, n), a)?;
    Some(Flow::Next)
}

/// `PUTD D1,D2,D3`: [D1.A + D2.A] := D3.
#[tactic(auto, unfolding(crate::specs::DescriptorClauses::putd))]
pub fn putd(args: &[Arg], cells: &mut Cells) -> Option<Flow>
    ensures { putd args.now cells.old ≡ after_flow result cells.new }
{
    let d1 = place(args, 0)?;
    let d2 = place(args, 1)?;
    let d3 = place(args, 2)?;
    let at = a_field(cells, d1)?;
    let n = a_field(cells, d2)?;
    let value = cells.descr(d3)?;
    cells.set_descr(wrapped_sum(at, n), value)?;
    Some(Flow::Next)
}

/// `PUTDC D1,N,D2`: [D1.A + N] := D2.
#[tactic(auto, unfolding(crate::specs::DescriptorClauses::putdc))]
pub fn putdc(args: &[Arg], cells: &mut Cells) -> Option<Flow>
    ensures { putdc args.now cells.old ≡ after_flow result cells.new }
{
    let d1 = place(args, 0)?;
    let n = number(args, 1)?;
    let d2 = place(args, 2)?;
    let at = a_field(cells, d1)?;
    let value = cells.descr(d2)?;
    cells.set_descr(wrapped_sum(at, n), value)?;
    Some(Flow::Next)
}

/// `PUTVC D1,N,D2`: [D1.A + N].V := D2.V.
#[tactic(auto, unfolding(crate::specs::DescriptorClauses::putvc))]
pub fn putvc(args: &[Arg], cells: &mut Cells) -> Option<Flow>
    ensures { putvc args.now cells.old ≡ after_flow result cells.new }
{
    let d1 = place(args, 0)?;
    let n = number(args, 1)?;
    let d2 = place(args, 2)?;
    let at = a_field(cells, d1)?;
    let v = v_field(cells, d2)?;
    set_v_field(cells, wrapped_sum(at, n), i128::from(v))?;
    Some(Flow::Next)
}

/// `RESETF D,F`: D.F := D.F without the bits of F.
#[tactic(auto, unfolding(crate::specs::DescriptorClauses::resetf))]
pub fn resetf(args: &[Arg], cells: &mut Cells) -> Option<Flow>
    ensures { resetf args.now cells.old ≡ after_flow result cells.new }
{
    let d = place(args, 0)?;
    let flags = flag(args, 1)?;
    let f = f_field(cells, d)?;
    set_f_field(cells, d, bits_without(f, flags))?;
    Some(Flow::Next)
}

/// `RSETFI D,F`: [D.A].F := itself without the bits of F.
#[tactic(auto, unfolding(crate::specs::DescriptorClauses::rsetfi))]
pub fn rsetfi(args: &[Arg], cells: &mut Cells) -> Option<Flow>
    ensures { rsetfi args.now cells.old ≡ after_flow result cells.new }
{
    let d = place(args, 0)?;
    let flags = flag(args, 1)?;
    let at = a_field(cells, d)?;
    let f = f_field(cells, at)?;
    set_f_field(cells, at, bits_without(f, flags))?;
    Some(Flow::Next)
}

/// `SETAC D,N`: D.A := N.
#[tactic(auto, unfolding(crate::specs::DescriptorClauses::setac))]
pub fn setac(args: &[Arg], cells: &mut Cells) -> Option<Flow>
    ensures { setac args.now cells.old ≡ after_flow result cells.new }
{
    let d = place(args, 0)?;
    let n = number(args, 1)?;
    set_a_field(cells, d, n)?;
    Some(Flow::Next)
}

/// `SETAV D1,D2`: D1 := (D2.V, 0, 0).
#[tactic(auto, unfolding(crate::specs::DescriptorClauses::setav))]
pub fn setav(args: &[Arg], cells: &mut Cells) -> Option<Flow>
    ensures { setav args.now cells.old ≡ after_flow result cells.new }
{
    let d1 = place(args, 0)?;
    let d2 = place(args, 1)?;
    let v = v_field(cells, d2)?;
    set_integer(cells, d1, integer(v))?;
    Some(Flow::Next)
}

/// `SETF D,F`: D.F := D.F with the bits of F.
#[tactic(auto, unfolding(crate::specs::DescriptorClauses::setf))]
pub fn setf(args: &[Arg], cells: &mut Cells) -> Option<Flow>
    ensures { setf args.now cells.old ≡ after_flow result cells.new }
{
    let d = place(args, 0)?;
    let flags = flag(args, 1)?;
    let f = f_field(cells, d)?;
    set_f_field(cells, d, f | flags)?;
    Some(Flow::Next)
}

/// `SETFI D,F`: [D.A].F := itself with the bits of F.
#[tactic(auto, unfolding(crate::specs::DescriptorClauses::setfi))]
pub fn setfi(args: &[Arg], cells: &mut Cells) -> Option<Flow>
    ensures { setfi args.now cells.old ≡ after_flow result cells.new }
{
    let d = place(args, 0)?;
    let flags = flag(args, 1)?;
    let at = a_field(cells, d)?;
    let f = f_field(cells, at)?;
    set_f_field(cells, at, f | flags)?;
    Some(Flow::Next)
}

/// `SETSIZ D1,D2`: [D1.A].V := D2.A.
#[tactic(auto, unfolding(crate::specs::DescriptorClauses::setsiz))]
pub fn setsiz(args: &[Arg], cells: &mut Cells) -> Option<Flow>
    ensures { setsiz args.now cells.old ≡ after_flow result cells.new }
{
    let d1 = place(args, 0)?;
    let d2 = place(args, 1)?;
    let at = a_field(cells, d1)?;
    let a = a_field(cells, d2)?;
    set_v_field(cells, at, i128::from(a))?;
    Some(Flow::Next)
}

/// `SETVA D1,D2`: D1.V := D2.A.
#[tactic(auto, unfolding(crate::specs::DescriptorClauses::setva))]
pub fn setva(args: &[Arg], cells: &mut Cells) -> Option<Flow>
    ensures { setva args.now cells.old ≡ after_flow result cells.new }
{
    let d1 = place(args, 0)?;
    let d2 = place(args, 1)?;
    let a = a_field(cells, d2)?;
    set_v_field(cells, d1, i128::from(a))?;
    Some(Flow::Next)
}

/// `SETVC D,N`: D.V := N.
#[tactic(auto, unfolding(crate::specs::DescriptorClauses::setvc))]
pub fn setvc(args: &[Arg], cells: &mut Cells) -> Option<Flow>
    ensures { setvc args.now cells.old ≡ after_flow result cells.new }
{
    let d = place(args, 0)?;
    let n = number(args, 1)?;
    set_v_field(cells, d, i128::from(n))?;
    Some(Flow::Next)
}
