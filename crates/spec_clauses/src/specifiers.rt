// The macros on whole specifiers, one function each.
ghost use Rattle.std.specs.Prelude.{◌≡◌, ◌-ℤ◌, ◌≤◌, IfSome, pos};
ghost use Rattle.layout_params.specs.declared.cell.Cell.TheVariants as cell;
ghost use Rattle.sil_model.specs.Effects.{after_flow};
ghost use Rattle.sil_model.specs.Integers.{within};
ghost use Rattle.sil_model.specs.Memory.{FitsCell};
ghost use Rattle.spec_clauses.specs.SpecifierClauses.{cut_to, getspc, locsp, putspc, remsp, setsp, subsp, titled};

use crate::fields::{length, set_length};
use layout_params::Descr;
use sil_model::{
    Arg, Cells, Flow, Specifier, a_field, goto, integer, number, place, set_spec, spec, wrapped_sum,
};

/// `GETSPC S,D,N`: S := the specifier at D.A + N.
#[tactic(auto, unfolding(crate::specs::SpecifierClauses::getspc))]
pub fn getspc(args: &[Arg], cells: &mut Cells) -> Option<Flow>
    ensures { getspc args.now cells.old ≡ after_flow result cells.new }
{
    let s = place(args, 0)?;
    let d = place(args, 1)?;
    let n = number(args, 2)?;
    let at = a_field(cells, d)?;
    let x = spec(cells, wrapped_sum(at, n))?;
    set_spec(cells, s, &x)?;
    Some(Flow::Next)
}

/// `LOCSP S,D`: where D.A is 0, S.L := 0; else S := (D.A, D.F, D.V, 4 cells, [D.A].V).
#[tactic(auto, unfolding(crate::specs::SpecifierClauses::locsp))]
pub fn locsp(args: &[Arg], cells: &mut Cells) -> Option<Flow>
    ensures { locsp args.now cells.old ≡ after_flow result cells.new }
{
    let s = place(args, 0)?;
    let d = place(args, 1)?;
    let title = cells.descr(d)?;
    if title.a == 0 {
        set_length(cells, s, 0)?;
        Some(Flow::Next)
    } else {
        set_titled(cells, s, &title)
    }
}

/// Makes the specifier at an address that of a title.
fn set_titled(cells: &mut Cells, at: i64, title: &Descr) -> Option<Flow>
    requires { FitsCell cells.old.limits (cell.Descr title.now) }
    ensures { titled cells.old at title.now ≡ after_flow result cells.new }
{
    let l = cells.descr(title.a)?.v;
    let x = Specifier {
        a: title.a,
        f: title.f,
        v: title.v,
        o: integer(4 * cells.cell_size()),
        l,
    };
    set_spec(cells, at, &x)?;
    Some(Flow::Next)
}

/// `PUTSPC D,N,S`: the specifier at D.A + N := S.
#[tactic(auto, unfolding(crate::specs::SpecifierClauses::putspc))]
pub fn putspc(args: &[Arg], cells: &mut Cells) -> Option<Flow>
    ensures { putspc args.now cells.old ≡ after_flow result cells.new }
{
    let d = place(args, 0)?;
    let n = number(args, 1)?;
    let s = place(args, 2)?;
    let at = a_field(cells, d)?;
    let x = spec(cells, s)?;
    set_spec(cells, wrapped_sum(at, n), &x)?;
    Some(Flow::Next)
}

/// `REMSP S1,S2,S3`: S1 := (S2.A, S2.F, S2.V, S2.O + S3.L, S2.L - S3.L).
#[tactic(auto, unfolding(crate::specs::SpecifierClauses::remsp))]
pub fn remsp(args: &[Arg], cells: &mut Cells) -> Option<Flow>
    ensures { remsp args.now cells.old ≡ after_flow result cells.new }
{
    let s1 = place(args, 0)?;
    let s2 = place(args, 1)?;
    let s3 = place(args, 2)?;
    let x = spec(cells, s2)?;
    let n = length(cells, s3)?;
    let l = shortened(cells.limits().value_limit, x.l, n)?;
    let o = wrapped_sum(x.o, integer(n));
    set_spec(cells, s1, &Specifier { o, l, ..x })?;
    Some(Flow::Next)
}

/// A length of at most a limit, less so many characters; none where it would be negative.
#[tactic(auto, unfolding(sil_model::specs::Integers::within))]
fn shortened(limit: u64, l: u64, n: u64) -> Option<u64>
    requires { l ≤ limit }
    ensures value { result ≡ within limit (pos l -ℤ pos n) }
    ensures small { IfSome result (λ rest. rest ≤ limit) }
{
    l.checked_sub(n)
}

/// `SETSP S1,S2`: S1 := S2.
#[tactic(auto, unfolding(crate::specs::SpecifierClauses::setsp))]
pub fn setsp(args: &[Arg], cells: &mut Cells) -> Option<Flow>
    ensures { setsp args.now cells.old ≡ after_flow result cells.new }
{
    let s1 = place(args, 0)?;
    let s2 = place(args, 1)?;
    let x = spec(cells, s2)?;
    set_spec(cells, s1, &x)?;
    Some(Flow::Next)
}

/// `SUBSP S1,S2,S3,LF,LS`: LF where S3.L is below S2.L; else
/// S1 := (S3.A, S3.F, S3.V, S3.O, S2.L), to LS.
#[tactic(auto, unfolding(crate::specs::SpecifierClauses::subsp))]
pub fn subsp(args: &[Arg], cells: &mut Cells) -> Option<Flow>
    ensures { subsp args.now cells.old ≡ after_flow result cells.new }
{
    let s1 = place(args, 0)?;
    let s2 = place(args, 1)?;
    let s3 = place(args, 2)?;
    let failure = goto(args, 3)?;
    let success = goto(args, 4)?;
    let l = length(cells, s2)?;
    let most = length(cells, s3)?;
    if most < l {
        Some(failure)
    } else {
        set_cut(cells, s1, s3, l, success)
    }
}

/// Makes the specifier at an address another one with a length of its own.
fn set_cut(cells: &mut Cells, at: i64, from: i64, l: u64, to: Flow) -> Option<Flow>
    requires { l ≤ cells.old.limits.value_limit }
    ensures { cut_to cells.old at from l to ≡ after_flow result cells.new }
{
    let x = spec(cells, from)?;
    set_spec(cells, at, &Specifier { l, ..x })?;
    Some(to)
}
