// The second cells of specifiers, which have their offsets and lengths.
ghost use Rattle.std.specs.Prelude.{◌≡◌, ◌<◌, ◌≤◌, ◌^◌, IfSome};
ghost use Rattle.sil_model.specs.Access.{written};
ghost use Rattle.spec_clauses.specs.SpecifierClauses.{length_at, second_cell, set_length_at};

use sil_model::{Cells, integer, set_v_field, wrapped_sum};

/// The address of the second cell of the specifier at an address.
pub(crate) fn second_cell(cells: &Cells, at: i64) -> i64
    ensures { result ≡ second_cell cells.now at }
{
    wrapped_sum(at, integer(cells.cell_size()))
}

/// The length of the specifier at an address, in characters.
pub(crate) fn length(cells: &Cells, at: i64) -> Option<u64>
    ensures reads { result ≡ length_at cells.now at }
    ensures fits { IfSome result (λ n. n ≤ cells.now.limits.value_limit) }
    ensures small { IfSome result (λ n. n < 2 ^ 48) }
{
    Some(cells.descr(second_cell(cells, at))?.v)
}

/// Sets the length of the specifier at an address, where it is within the limit.
pub(crate) fn set_length(cells: &mut Cells, at: i64, length: i128) -> Option<()>
    ensures { set_length_at cells.old at length ≡ written result cells.new }
{
    let second = second_cell(cells, at);
    set_v_field(cells, second, length)
}
