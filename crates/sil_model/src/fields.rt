// Fields as macros read and write them.
ghost use Rattle.std.specs.Prelude.{◌≡◌, ◌<◌, ◌≤◌, ◌^◌, IfNone, IfSome, pos};
ghost use Rattle.sil_model.specs.Access.{a_at, f_at, v_at, integer_alone, set_a_at, set_descr_at, set_f_at, set_v_at, written};
ghost use Rattle.sil_model.specs.Integers.{within};
ghost use Rattle.sil_model.specs.Memory.{SameShape};

use crate::cells::Cells;
use layout_params::{Descr, Field};

/// The A field of the descriptor at an address.
pub fn a_field(cells: &Cells, at: i64) -> Option<i64>
    ensures { result ≡ a_at cells.now at }
{
    Some(cells.descr(at)?.a)
}

/// The F field of the descriptor at an address.
pub fn f_field(cells: &Cells, at: i64) -> Option<u32>
    ensures { result ≡ f_at cells.now at }
{
    Some(cells.descr(at)?.f)
}

/// The V field of the descriptor at an address.
pub fn v_field(cells: &Cells, at: i64) -> Option<u64>
    ensures reads { result ≡ v_at cells.now at }
    ensures small { IfSome result (λ v. v < 2 ^ 48) }
{
    Some(cells.descr(at)?.v)
}

/// Sets the A field of the descriptor at an address. The cells stay where there is none.
pub fn set_a_field(cells: &mut Cells, at: i64, a: i64) -> Option<()>
    ensures writes { set_a_at cells.old at a ≡ written result cells.new }
    ensures stays { IfNone result (cells.new ≡ cells.old) }
    ensures keeps { SameShape cells.old cells.new }
{
    cells.set_field(at, Field::A, a.cast_unsigned())
}

/// Sets the F field of the descriptor at an address, where the flags are within the limit.
pub fn set_f_field(cells: &mut Cells, at: i64, flags: u32) -> Option<()>
    ensures { set_f_at cells.old at (pos flags) ≡ written result cells.new }
{
    let Descr { a, v, .. } = cells.descr(at)?;
    let f = flags_within(cells.limits().flag_limit, flags)?;
    cells.set_descr(at, Descr { a, f, v })
}

/// Sets the V field of the descriptor at an address, where the integer is within the limit.
pub fn set_v_field(cells: &mut Cells, at: i64, value: i128) -> Option<()>
    ensures { set_v_at cells.old at value ≡ written result cells.new }
{
    let Descr { a, f, .. } = cells.descr(at)?;
    let v = within(cells.limits().value_limit, value)?;
    cells.set_descr(at, Descr { a, f, v })
}

/// Makes the cell at an address an integer with 0 as F and V.
pub fn set_integer(cells: &mut Cells, at: i64, a: i64) -> Option<()>
    ensures { set_descr_at cells.old at (integer_alone a) ≡ written result cells.new }
{
    cells.set_descr(at, Descr { a, f: 0, v: 0 })
}

/// An integer as a field without a sign holds it, up to a limit.
#[tactic(auto, unfolding(crate::specs::Integers::within))]
fn within(limit: u64, value: i128) -> Option<u64>
    ensures value { result ≡ within limit value }
    ensures small { IfSome result (λ n. n ≤ limit) }
{
    let n = u64::try_from(value).ok()?;
    if n <= limit { Some(n) } else { None }
}

/// Flags, where they are up to a limit.
#[tactic(auto, unfolding(crate::specs::Integers::within))]
fn flags_within(limit: u64, flags: u32) -> Option<u32>
    ensures value { result ≡ within limit (pos flags) }
    ensures small { IfSome result (λ f. f ≤ limit) }
{
    if u64::from(flags) <= limit {
        Some(flags)
    } else {
        None
    }
}
