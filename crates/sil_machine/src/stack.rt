// The macros of the stack.
ghost use Rattle.std.specs.Prelude.{◌≡◌, ℕ};
ghost use Rattle.unit_io.specs.Tapes.{Tapes};
ghost use Rattle.flow_clauses.specs.StackClauses.{istack, pop, pstack, push, spop, spush};
ghost use Rattle.sil_machine.specs.MachineParts.{left_by, state_of};

use crate::parts::Parts;
use crate::site::Site;
use flow_clauses::{
    above, below, carry, carry_specs, cells_above, cells_below, specs_above, specs_below,
};
use layout_params::Descr;
use sil_model::{Flow, place};

/// `ISTACK`: the stack is empty.
#[tactic(auto, unfolding(flow_clauses::specs::StackClauses::istack))]
pub fn istack(site: &Site, parts: &mut Parts) -> Option<Flow>
    ensures { (k steps : ℕ) (tapes : Tapes) → istack site.now (state_of k steps parts.old tapes) ≡ left_by result (state_of k steps parts.new tapes) }
{
    let bottom = site.bottom();
    parts.current = bottom;
    parts.previous = bottom;
    Some(Flow::Next)
}

/// `PSTACK D`: D is the address of the cell below the top.
#[tactic(auto, unfolding(flow_clauses::specs::StackClauses::pstack))]
pub fn pstack(site: &Site, parts: &mut Parts) -> Option<Flow>
    ensures { (k steps : ℕ) (tapes : Tapes) → pstack site.now (state_of k steps parts.old tapes) ≡ left_by result (state_of k steps parts.new tapes) }
{
    let d = place(site.args(), 0)?;
    let a = below(&parts.cells, parts.current, 1);
    parts.cells.set_descr(d, Descr { a, f: 0, v: 0 })?;
    Some(Flow::Next)
}

/// `PUSH DD`: the items go onto the stack in order, or to OVER where there is no room.
#[tactic(auto, unfolding(flow_clauses::specs::StackClauses::push))]
pub fn push(site: &Site, parts: &mut Parts) -> Option<Flow>
    ensures { (k steps : ℕ) (tapes : Tapes) → push site.now (state_of k steps parts.old tapes) ≡ left_by result (state_of k steps parts.new tapes) }
{
    let places = site.places(0)?;
    let count = places.len();
    let top = above(&parts.cells, parts.current, count);
    if site.summit() < top {
        return Some(Flow::To(site.specials().over?));
    }
    let targets = cells_above(&parts.cells, parts.current, count);
    carry(&mut parts.cells, places, &targets[..count])?;
    parts.current = top;
    Some(Flow::Next)
}

/// `POP DD`: the items come from the top down, or to INTR10 where the stack has too few.
#[tactic(auto, unfolding(flow_clauses::specs::StackClauses::pop))]
pub fn pop(site: &Site, parts: &mut Parts) -> Option<Flow>
    ensures { (k steps : ℕ) (tapes : Tapes) → pop site.now (state_of k steps parts.old tapes) ≡ left_by result (state_of k steps parts.new tapes) }
{
    let places = site.places(0)?;
    let count = places.len();
    let top = below(&parts.cells, parts.current, count);
    if top < site.bottom() {
        return Some(Flow::To(site.specials().under?));
    }
    let sources = cells_below(&parts.cells, parts.current, count);
    carry(&mut parts.cells, &sources[..count], places)?;
    parts.current = top;
    Some(Flow::Next)
}

/// `SPUSH SS`: as PUSH with the two cells of each specifier.
#[tactic(auto, unfolding(flow_clauses::specs::StackClauses::spush))]
pub fn spush(site: &Site, parts: &mut Parts) -> Option<Flow>
    ensures { (k steps : ℕ) (tapes : Tapes) → spush site.now (state_of k steps parts.old tapes) ≡ left_by result (state_of k steps parts.new tapes) }
{
    let places = site.places(0)?;
    let count = places.len();
    let top = above(&parts.cells, parts.current, 2 * count);
    if site.summit() < top {
        return Some(Flow::To(site.specials().over?));
    }
    let targets = specs_above(&parts.cells, parts.current, count);
    carry_specs(&mut parts.cells, places, &targets[..count])?;
    parts.current = top;
    Some(Flow::Next)
}

/// `SPOP SS`: as POP with the two cells of each specifier.
#[tactic(auto, unfolding(flow_clauses::specs::StackClauses::spop))]
pub fn spop(site: &Site, parts: &mut Parts) -> Option<Flow>
    ensures { (k steps : ℕ) (tapes : Tapes) → spop site.now (state_of k steps parts.old tapes) ≡ left_by result (state_of k steps parts.new tapes) }
{
    let places = site.places(0)?;
    let count = places.len();
    let top = below(&parts.cells, parts.current, 2 * count);
    if top < site.bottom() {
        return Some(Flow::To(site.specials().under?));
    }
    let sources = specs_below(&parts.cells, parts.current, count);
    carry_specs(&mut parts.cells, &sources[..count], places)?;
    parts.current = top;
    Some(Flow::Next)
}
