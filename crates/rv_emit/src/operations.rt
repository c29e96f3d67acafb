// The places of operations, and their instructions.
ghost use Rattle.std.specs.Prelude.{◌≡◌, ◌++◌, ◌<◌, ◌≤◌, ◌^◌, IfOk, OnOk};
ghost use Rattle.rv_operations.specs.OpCodes.{op_length};
ghost use Rattle.rv_operations.specs.OpSites.{HasRules, IsBegun};
ghost use Rattle.rv_emit.specs.Emits.{CanEmit};
ghost use Rattle.rv_emit.specs.Planned.{IsPlanned, operations_of};

use crate::links::{links_of, number_links, number_of};
use crate::plan::{Plan, first_op, routines_at};
use layout_params::{Layout, Params};
use rv_isa::Instr;
use rv_operations::{Site, append_op, law_of_lengths};
use sil_micro::{Code, Op};
use std::alloc::{AllocError, Global};

/// How many instructions an operation has, which rests on its number alone: as many as it has at
/// place 0. They are written into a scratch.
fn length_of<L: Layout>(
    scratch: &mut Vec<Instr>,
    layout: &L,
    number: u64,
    op: Op,
) -> Result<usize, AllocError>
    requires rules { HasRules op }
    requires begun { IsBegun op }
    ensures { IfOk result (λ n. n ≡ op_length number op) }
{
    law_of_lengths();
    let site = Site {
        routines: routines_at(16, 0),
        links: number_links(number),
        place: 0,
    };
    scratch.clear();
    append_op(scratch, layout, &site, op)?;
    Ok(scratch.len())
}

/// The places of operations, and last the place after all of them.
pub fn op_places<L: Layout>(
    alloc: Global,
    code: &Code,
    layout: &L,
    params: &Params,
) -> Result<Vec<u64>, AllocError>
    requires { CanEmit code.now params.now.settings }
    ensures { IfOk result (λ places. IsPlanned params.now.settings code.now places.items) }
{
    let statics = u64::from(code.static_cells());
    let mut scratch = Vec::new(alloc);
    let mut places = Vec::new(alloc);
    let mut place = u64::from(first_op(params.numbers().descr() as u32, code.statements() as u32));
    let ops = code.ops();
    for op in ops {
        places.push(place)?;
        let number = number_of(params, statics, *op);
        place += 4 * length_of(&mut scratch, layout, number, *op)? as u64;
    }
    places.push(place)?;
    Ok(places)
}

/// Appends the operations, each where it stands.
pub fn append_ops<L: Layout>(
    code: &mut Vec<Instr>,
    plan: &Plan<'_>,
    layout: &L,
) -> Result<(), AllocError>
    requires plan { IsPlanned plan.now.params.now.settings plan.now.code.now plan.now.ops.now }
    requires layout { L.sizes layout.now ≡ plan.now.params.now.settings.sizes }
    ensures { OnOk result (code.new.items ≡ code.old.items ++ operations_of plan.now.params.now.settings plan.now.code.now) }
{
    let routines = routines_at(
        plan.params.numbers().descr() as u32,
        plan.code.statements() as u32,
    );
    let ops = plan.code.ops();
    for (q, op) in ops.iter().enumerate() {
        let site = Site {
            routines,
            links: links_of(plan, *op),
            place: plan.op(q as u32),
        };
        append_op(code, layout, &site, *op)?;
    }
    Ok(())
}
