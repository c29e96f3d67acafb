// Specifiers.
ghost use Rattle.std.specs.Prelude.{◌≡◌, IfSome};
ghost use Rattle.sil_model.specs.Access.{written};
ghost use Rattle.sil_model.specs.Memory.{SameShape};
ghost use Rattle.sil_model.specs.Specifiers.{FitsSpec, set_spec_at, spec_at};

use crate::cells::Cells;
use layout_params::Descr;

/// A specifier: a descriptor, and the offset and the length of its characters, which the A and the
/// V field of the next cell hold.
#[derive(Clone, Copy, Default, PartialEq, Eq, Debug)]
pub struct Specifier {
    pub a: i64,
    pub f: u32,
    pub v: u64,
    pub o: i64,
    pub l: u64,
}

/// The specifier at an address.
#[tactic(auto, unfolding(crate::specs::Integers::wrapped_sum))]
pub fn spec(cells: &Cells, at: i64) -> Option<Specifier>
    ensures reads { result ≡ spec_at cells.now at }
    ensures fits { IfSome result (FitsSpec cells.now.limits) }
{
    let first = cells.descr(at)?;
    let second = cells.descr(at.wrapping_add_unsigned(cells.cell_size()))?;
    Some(Specifier {
        a: first.a,
        f: first.f,
        v: first.v,
        o: second.a,
        l: second.v,
    })
}

/// Writes the specifier at an address, whose second cell gets 0 as F.
#[tactic(auto, unfolding(crate::specs::Integers::wrapped_sum))]
pub fn set_spec(cells: &mut Cells, at: i64, spec: &Specifier) -> Option<()>
    requires fits { FitsSpec cells.old.limits spec.now }
    ensures writes { set_spec_at cells.old at spec.now ≡ written result cells.new }
    ensures keeps { SameShape cells.old cells.new }
{
    let next = at.wrapping_add_unsigned(cells.cell_size());
    cells.set_descr(
        at,
        Descr {
            a: spec.a,
            f: spec.f,
            v: spec.v,
        },
    )?;
    cells.set_descr(
        next,
        Descr {
            a: spec.o,
            f: 0,
            v: spec.l,
        },
    )
}
