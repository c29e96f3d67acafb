// Where the machine's areas lie.
ghost use Rattle.std.specs.Prelude.{◌≡◌, ◌+◌, ◌*◌, ◌≤◌, pos};
ghost use Rattle.layout_params.specs.Areas.{all_cells, hidden_cells};
ghost use Rattle.flow_clauses.specs.FlowClauses.{first_dynamic, past_dynamic};
ghost use Rattle.flow_clauses.specs.StackClauses.{last_cell};

use layout_params::Params;
use sil_base::{FIRST_CELL, MAX_CELLS};
use sil_model::limits_of;

/// The cells of the hidden buffer, which holds 20 characters.
fn hidden_cells(params: &Params) -> u64
    ensures value { result ≡ hidden_cells params.now.settings }
    ensures few { result ≤ 2 }
{
    let size = limits_of(params).cell_size;
    (20 + size - 1) / size
}

/// The address of the hidden buffer, which stands behind the static cells, by their number.
pub fn hidden(params: &Params, statics: usize) -> i64
    requires { all_cells params.now.settings statics ≤ MAX_CELLS }
    ensures { result ≡ pos (FIRST_CELL + statics * params.now.settings.sizes.descr) }
{
    let size = limits_of(params).cell_size;
    (FIRST_CELL + statics as u64 * size) as i64
}

/// The address of the first cell of dynamic storage, by the number of the static cells.
pub fn first_dynamic(params: &Params, statics: usize) -> i64
    requires { all_cells params.now.settings statics ≤ MAX_CELLS }
    ensures { result ≡ first_dynamic params.now.settings statics }
{
    let size = limits_of(params).cell_size;
    let below = statics as u64 + hidden_cells(params);
    (FIRST_CELL + below * size) as i64
}

/// The address after the last cell of dynamic storage.
pub fn past_dynamic(params: &Params, statics: usize) -> i64
    requires { all_cells params.now.settings statics ≤ MAX_CELLS }
    ensures { result ≡ past_dynamic params.now.settings statics }
{
    let size = limits_of(params).cell_size;
    let below = statics as u64 + hidden_cells(params) + params.dynamic_size();
    (FIRST_CELL + below * size) as i64
}

/// The address of the last cell of the stack.
pub fn last_cell(params: &Params, statics: usize) -> i64
    requires { all_cells params.now.settings statics ≤ MAX_CELLS }
    ensures { result ≡ last_cell params.now.settings statics }
{
    let size = limits_of(params).cell_size;
    let all = params.settings().all_cells(statics);
    (FIRST_CELL + all * size - size) as i64
}
