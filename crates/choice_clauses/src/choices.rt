// Which of its locations a macro that compares goes to.
ghost use Rattle.std.specs.Prelude.{◌≡◌, ◌<◌, ◌^◌, IfSome};
ghost use Rattle.layout_params.specs.declared.cell.Cell.TheVariants as cell;
ghost use Rattle.choice_clauses.specs.ComparisonClauses.{by_equality, by_flags, by_order, by_sameness, length_at};

use layout_params::Descr;
use sil_model::{Cells, Flow, integer, v_field, wrapped_sum};
use std::cmp::Ordering;

/// The first where x is greater, the second where they are equal, the third where it is less.
pub(crate) fn by_order(x: i64, y: i64, greater: Flow, equal: Flow, less: Flow) -> Flow
    ensures { result ≡ by_order x y greater equal less }
{
    match x.cmp(&y) {
        Ordering::Greater => greater,
        Ordering::Equal => equal,
        Ordering::Less => less,
    }
}

/// The first where they aren't equal, else the second.
pub(crate) fn by_equality(x: i64, y: i64, unequal: Flow, equal: Flow) -> Flow
    ensures { result ≡ by_equality x y unequal equal }
{
    by_order(x, y, unequal, equal, unequal)
}

/// The first where they aren't equal in A, F and V, else the second.
pub(crate) fn by_sameness(x: &Descr, y: &Descr, unequal: Flow, equal: Flow) -> Flow
    requires x { x.now.v < 2 ^ 63 }
    requires y { y.now.v < 2 ^ 63 }
    ensures { result ≡ by_sameness x.now y.now unequal equal }
{
    let by_v = by_equality(integer(x.v), integer(y.v), unequal, equal);
    let by_f = by_equality(i64::from(x.f), i64::from(y.f), unequal, by_v);
    by_equality(x.a, y.a, unequal, by_f)
}

/// The second where f has all bits of the flags, else the first.
pub(crate) fn by_flags(f: u32, flags: u32, lacking: Flow, having: Flow) -> Flow
    ensures { result ≡ by_flags f flags lacking having }
{
    if f & flags == flags { having } else { lacking }
}

/// The length of the specifier at an address, in characters.
pub(crate) fn length(cells: &Cells, at: i64) -> Option<u64>
    ensures reads { result ≡ length_at cells.now at }
    ensures small { IfSome result (λ n. n < 2 ^ 48) }
{
    v_field(cells, wrapped_sum(at, integer(cells.cell_size())))
}
