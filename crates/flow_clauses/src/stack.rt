// Addresses of the stack.
ghost use Rattle.std.specs.Prelude.{◌≡◌, ◌≤◌, take};
ghost use Rattle.sil_model.specs.Integers.{◌⊞◌};
ghost use Rattle.sil_model.specs.Lists.{line};
ghost use Rattle.flow_clauses.specs.StackClauses.{above, below, step_down, step_up};

use crate::lists::line;
use sil_base::MAX_LIST_ITEMS;
use sil_model::Cells;

/// The address so many cells above another.
#[tactic(auto, unfolding(sil_model::specs::Integers::wrapped_sum))]
pub fn above(cells: &Cells, at: i64, n: usize) -> i64
    requires { n ≤ 100 }
    ensures { result ≡ above cells.now at n }
{
    at.wrapping_add_unsigned(n as u64 * cells.cell_size())
}

/// The address so many cells below another.
#[tactic(auto, unfolding(sil_model::specs::Integers::wrapped_difference))]
pub fn below(cells: &Cells, at: i64, n: usize) -> i64
    requires { n ≤ 100 }
    ensures { result ≡ below cells.now at n }
{
    at.wrapping_sub_unsigned(n as u64 * cells.cell_size())
}

/// The sum modulo 2^64.
#[tactic(auto, unfolding(sil_model::specs::Integers::wrapped_sum))]
pub(crate) fn sum(x: i64, y: i64) -> i64
    ensures { result ≡ x ⊞ y }
{
    x.wrapping_add(y)
}

/// The bytes of a cell, upwards.
pub(crate) fn step_up(cells: &Cells) -> i64
    ensures { result ≡ step_up cells.now }
{
    cells.cell_size() as i64
}

/// The bytes of a cell, downwards.
#[tactic(auto, unfolding(sil_model::specs::Integers::wrapped_difference))]
fn step_down(cells: &Cells) -> i64
    ensures { result ≡ step_down cells.now }
{
    0i64.wrapping_sub_unsigned(cells.cell_size())
}

/// So many cells above the top, lowest first.
pub fn cells_above(cells: &Cells, top: i64, n: usize) -> [i64; MAX_LIST_ITEMS]
    requires { n ≤ MAX_LIST_ITEMS }
    ensures { take n result ≡ line (top ⊞ step_up cells.now) (step_up cells.now) n }
{
    let step = step_up(cells);
    line(sum(top, step), step, n)
}

/// So many cells from the top down.
pub fn cells_below(cells: &Cells, top: i64, n: usize) -> [i64; MAX_LIST_ITEMS]
    requires { n ≤ MAX_LIST_ITEMS }
    ensures { take n result ≡ line top (step_down cells.now) n }
{
    line(top, step_down(cells), n)
}

/// The first cells of so many specifiers above the top, lowest first.
pub fn specs_above(cells: &Cells, top: i64, n: usize) -> [i64; MAX_LIST_ITEMS]
    requires { n ≤ MAX_LIST_ITEMS }
    ensures { take n result ≡ line (top ⊞ step_up cells.now) (step_up cells.now ⊞ step_up cells.now) n }
{
    let step = step_up(cells);
    line(sum(top, step), sum(step, step), n)
}

/// The first cells of so many specifiers from the top down.
pub fn specs_below(cells: &Cells, top: i64, n: usize) -> [i64; MAX_LIST_ITEMS]
    requires { n ≤ MAX_LIST_ITEMS }
    ensures { take n result ≡ line (top ⊞ step_down cells.now) (step_down cells.now ⊞ step_down cells.now) n }
{
    let step = step_down(cells);
    line(sum(top, step), sum(step, step), n)
}
