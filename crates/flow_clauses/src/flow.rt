// The macros of flow that look at their operands and the memory alone.
ghost use Rattle.std.specs.Prelude.{◌≡◌};
ghost use Rattle.sil_model.specs.Access.{written};
ghost use Rattle.sil_model.specs.Arguments.{nth_location};
ghost use Rattle.flow_clauses.specs.CallClauses.{hand_back};
ghost use Rattle.sil_model.specs.Effects.{after_flow};
ghost use Rattle.flow_clauses.specs.FlowClauses.{branch, endex, load, selbra};
ghost use Rattle.sil_model.specs.Memory.{SameShape};

use sil_model::{Arg, Cells, Flow, a_field, goto, goto_list, place};

/// `BRANCH R,E?`: to R.
#[tactic(auto, unfolding(crate::specs::FlowClauses::branch))]
pub fn branch(args: &[Arg], cells: &Cells) -> Option<Flow>
    ensures { branch args.now cells.now ≡ after_flow result cells.now }
{
    let _ = cells;
    goto(args, 0)
}

/// `ENDEX D`: ends as exit 0 where D.A is 0, else as exit 1.
#[tactic(auto, unfolding(crate::specs::FlowClauses::endex))]
pub fn endex(args: &[Arg], cells: &Cells) -> Option<Flow>
    ensures { endex args.now cells.now ≡ after_flow result cells.now }
{
    let d = place(args, 0)?;
    let a = a_field(cells, d)?;
    Some(Flow::Exit(if a == 0 { 0 } else { 1 }))
}

/// `LOAD D,S1,S2,LF,LS`: to LF.
#[tactic(auto, unfolding(crate::specs::FlowClauses::load))]
pub fn load(args: &[Arg], cells: &Cells) -> Option<Flow>
    ensures { load args.now cells.now ≡ after_flow result cells.now }
{
    let _ = cells;
    goto(args, 3)
}

/// `SELBRA D,LL`: to the D.A-th location, counted from 1; on where there is none.
#[tactic(auto, unfolding(crate::specs::FlowClauses::selbra))]
pub fn selbra(args: &[Arg], cells: &Cells) -> Option<Flow>
    ensures { selbra args.now cells.now ≡ after_flow result cells.now }
{
    let d = place(args, 0)?;
    let locations = goto_list(args, 1)?;
    let a = a_field(cells, d)?;
    Some(match nth_location(locations, a) {
        Some(k) => Flow::To(k),
        None => Flow::Next,
    })
}

/// The location of a number, counted from 1.
#[tactic(auto, unfolding(sil_model::specs::Arguments::nth_location))]
pub fn nth_location(locations: &[Option<u32>], n: i64) -> Option<u32>
    ensures { result ≡ nth_location locations.now n }
{
    let n = u64::try_from(n).ok()?.checked_sub(1)?;
    if n < locations.len() as u64 {
        locations[n as usize]
    } else {
        None
    }
}

/// Gives the descriptor at the first place to the second, where both are there.
#[tactic(auto, unfolding(crate::specs::CallClauses::hand_back))]
pub fn hand_back(cells: &mut Cells, from: Option<i64>, to: Option<i64>) -> Option<()>
    ensures writes { hand_back cells.old from to ≡ written result cells.new }
    ensures keeps { SameShape cells.old cells.new }
{
    match (from, to) {
        (Some(from), Some(to)) => {
            let value = cells.descr(from)?;
            cells.set_descr(to, value)
        }
        _ => Some(()),
    }
}
