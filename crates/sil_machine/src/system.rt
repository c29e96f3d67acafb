// The macros of storage and of the steps.
ghost use Rattle.std.specs.Prelude.{◌≡◌, ◌≤◌, ℕ};
ghost use Rattle.unit_io.specs.Tapes.{Tapes};
ghost use Rattle.sil_model.specs.Effects.{after_flow};
ghost use Rattle.flow_clauses.specs.FlowClauses.{init, mstime};
ghost use Rattle.sil_machine.specs.MachineParts.{left_by, state_of};

use crate::parts::Parts;
use crate::site::Site;
use layout_params::Descr;
use sil_base::MAX_STEPS;
use sil_model::{Cells, Flow, place, set_a_field};

/// `INIT`: FRSGPT.A and HDSGPT.A are the first dynamic cell, TLSGP1.A is the address after the
/// last one.
#[tactic(auto, unfolding(flow_clauses::specs::FlowClauses::init))]
pub fn init(site: &Site, cells: &mut Cells) -> Option<Flow>
    ensures { init site.now cells.old ≡ after_flow result cells.new }
{
    let specials = site.specials();
    let first = specials.first?;
    let head = specials.head?;
    let tail = specials.tail?;
    set_a_field(cells, first, site.first_dynamic())?;
    set_a_field(cells, head, site.first_dynamic())?;
    set_a_field(cells, tail, site.past_dynamic())?;
    Some(Flow::Next)
}

/// `MSTIME D`: D is the number of the steps taken before this one.
#[tactic(auto, unfolding(flow_clauses::specs::FlowClauses::mstime))]
pub fn mstime(site: &Site, steps: u64, parts: &mut Parts) -> Option<Flow>
    requires { steps ≤ MAX_STEPS }
    ensures { (k : ℕ) (tapes : Tapes) → mstime site.now (state_of k steps parts.old tapes) ≡ left_by result (state_of k steps parts.new tapes) }
{
    let d = place(site.args(), 0)?;
    let a = steps as i64;
    parts.cells.set_descr(d, Descr { a, f: 0, v: 0 })?;
    Some(Flow::Next)
}
