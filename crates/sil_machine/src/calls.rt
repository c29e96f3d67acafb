// The macros that go by the entries of statements.
ghost use Rattle.std.specs.Prelude.{◌≡◌, ◌<◌, ℕ};
ghost use Rattle.unit_io.specs.Tapes.{Tapes};
ghost use Rattle.flow_clauses.specs.CallClauses.{branic, location_at, location_or, rcall, rrturn};
ghost use Rattle.sil_model.specs.Effects.{after_flow};
ghost use Rattle.sil_machine.specs.MachineParts.{left_by, state_of};

use crate::parts::Parts;
use crate::site::Site;
use flow_clauses::{above, hand_back, nth_location, read_all, write_frame};
use sil_model::{Cells, Flow, a_field, goto, goto_list, maybe_number, maybe_place, number, place};

/// `BRANIC D,N`: to the statement whose entry is [D.A + N].A.
#[tactic(auto, unfolding(flow_clauses::specs::CallClauses::branic, sil_model::specs::Integers::wrapped_sum))]
pub fn branic(site: &Site, cells: &Cells) -> Option<Flow>
    ensures { branic site.now cells.now ≡ after_flow result cells.now }
{
    let d = place(site.args(), 0)?;
    let n = number(site.args(), 1)?;
    let a = a_field(cells, d)?;
    let entry = a_field(cells, a.wrapping_add(n))?;
    Some(Flow::To(site.statement_of(entry)?))
}

/// `RCALL D?,R,DD?,LL`: a new frame begins; to R, or to OVER where there is no room.
#[tactic(auto, unfolding(flow_clauses::specs::CallClauses::rcall))]
pub fn rcall(site: &Site, parts: &mut Parts) -> Option<Flow>
    ensures { (k steps : ℕ) (tapes : Tapes) → rcall site.now (state_of k steps parts.old tapes) ≡ left_by result (state_of k steps parts.new tapes) }
{
    let flow = goto(site.args(), 1)?;
    let places = site.maybe_places(2)?;
    let top = above(&parts.cells, parts.current, 2 + places.len());
    if site.summit() < top {
        return Some(Flow::To(site.specials().over?));
    }
    let values = read_all(&parts.cells, places)?;
    write_frame(
        &mut parts.cells,
        parts.current,
        parts.previous,
        site.entry(),
        &values[..places.len()],
    )?;
    parts.previous = parts.current;
    parts.current = top;
    Some(flow)
}

/// The location of a number from 1, where there is a number.
fn location_at(locations: &[Option<u32>], n: Option<i64>) -> Option<u32>
    ensures { result ≡ location_at locations.now n }
{
    nth_location(locations, n?)
}

/// The location, or the other where there is none.
fn location_or(other: u32, location: Option<u32>) -> u32
    ensures { result ≡ location_or other location }
{
    location.unwrap_or(other)
}

/// `RRTURN D?,N?`: the frame goes; D goes to the descriptor of the RCALL that made it; to the N-th
/// location of that RCALL, or to the statement after it.
#[tactic(auto, unfolding(flow_clauses::specs::CallClauses::rrturn))]
pub fn rrturn(site: &Site, parts: &mut Parts) -> Option<Flow>
    ensures { (k steps : ℕ) (tapes : Tapes) → rrturn site.now (state_of k steps parts.old tapes) ≡ left_by result (state_of k steps parts.new tapes) }
{
    let d = maybe_place(site.args(), 0)?;
    let n = maybe_number(site.args(), 1)?;
    let saved = a_field(&parts.cells, above(&parts.cells, parts.previous, 1))?;
    let entry = a_field(&parts.cells, above(&parts.cells, parts.previous, 2))?;
    let k = site.statement_of(entry)?;
    let call = site.call(k)?.args.items();
    let to = maybe_place(call, 0)?;
    let locations = goto_list(call, 3)?;
    hand_back(&mut parts.cells, d, to)?;
    if site.is_top(saved) {
        parts.current = parts.previous;
        parts.previous = saved;
        Some(Flow::To(location_or(k + 1, location_at(locations, n))))
    } else {
        None
    }
}
