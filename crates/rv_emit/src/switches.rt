// The routines that jump by an entry, with their tables.
ghost use Rattle.std.specs.Prelude.{◌≡◌, ◌+◌, ◌-◌, ◌++◌, ◌<◌, ◌≤◌, ◌^◌, length, OnOk};
ghost use Rattle.rv_operations.specs.Switch.{led, switch_code};
ghost use Rattle.rv_emit.specs.Planned.{IsPlanned, routine_of, switch_of, table_of};

use crate::plan::{Plan, Switch, routines_at};
use layout_params::Layout;
use rv_isa::{BOp, IOp, Instr, ROp, UOp};
use rv_routines::descr_of;
use rv_straight::{
    branch, far_lower, far_upper, immediate, leap, lower, operate, upper, upper_part,
};
use std::alloc::AllocError;

/// The routine at a place, which finds one of so many statements by the entry in x10, and jumps into
/// its table.
fn switch_code<L: Layout>(layout: &L, count: u32, place: u32, table: u32) -> [Instr; 16]
    requires count { count ≤ 2 ^ 14 }
    requires place { place < 2 ^ 31 }
    ensures { result ≡ switch_code (L.sizes layout.now).descr count place table }
{
    let from = place + 40;
    [
        upper_part(UOp::Lui, 28, 0x7_0000),
        operate(ROp::Sub, 28, 10, 28),
        immediate(IOp::Addi, 29, 0, descr_of(layout)),
        operate(ROp::Remu, 30, 28, 29),
        branch(BOp::Bne, 30, 0, 36),
        operate(ROp::Divu, 28, 28, 29),
        upper_part(UOp::Lui, 29, upper(u64::from(count)) as u32),
        immediate(IOp::Addi, 29, 29, lower(u64::from(count))),
        branch(BOp::Bgeu, 28, 29, 20),
        immediate(IOp::Slli, 28, 28, 3),
        upper_part(UOp::Auipc, 29, far_upper(from, table)),
        operate(ROp::Add, 28, 28, 29),
        immediate(IOp::Jalr, 0, 28, far_lower(from, table)),
        immediate(IOp::Addi, 17, 0, 1),
        immediate(IOp::Addi, 10, 0, 3),
        Instr::Ecall,
    ]
}

/// Where a statement's jump leads: to its place, or to the undefined end of the routine.
fn led(routine: u32, place: Option<u32>) -> u32
    requires { routine < 2 ^ 31 }
    ensures { result ≡ led routine place }
{
    match place {
        Some(to) => to,
        None => routine + 52,
    }
}

/// Where a routine stands.
fn routine_of(descr: u32, statements: u32, switch: Switch) -> u32
    requires d { descr ≤ 64 }
    requires statements { statements ≤ 2 ^ 14 }
    ensures value { result ≡ routine_of descr statements switch }
    ensures low { result < 2 ^ 20 }
{
    let routines = routines_at(descr, statements);
    match switch {
        Switch::Entry => routines.entry,
        Switch::ReturnPart => routines.return_part,
    }
}

/// Appends the table of a routine: a jump for each statement.
fn append_table(
    code: &mut Vec<Instr>,
    plan: &Plan<'_>,
    switch: Switch,
    routine: u32,
) -> Result<(), AllocError>
    requires plan { IsPlanned plan.now.params.now.settings plan.now.code.now plan.now.ops.now }
    requires place { routine ≡ routine_of plan.now.params.now.settings.sizes.descr (length plan.now.code.now.entries) switch }
    requires low { routine < 2 ^ 20 }
    ensures { OnOk result (code.new.items ≡ code.old.items ++ table_of plan.now.params.now.settings plan.now.code.now switch) }
{
    for k in 0..plan.code.statements() as u32 {
        let to = led(routine, plan.lead(switch, k));
        code.extend_from_slice(&leap(28, 0, routine + 64 + 8 * k, to))?;
    }
    Ok(())
}

/// Appends a routine that jumps by an entry, and its table.
pub fn append_switch<L: Layout>(
    code: &mut Vec<Instr>,
    plan: &Plan<'_>,
    layout: &L,
    switch: Switch,
) -> Result<(), AllocError>
    requires plan { IsPlanned plan.now.params.now.settings plan.now.code.now plan.now.ops.now }
    requires layout { L.sizes layout.now ≡ plan.now.params.now.settings.sizes }
    ensures { OnOk result (code.new.items ≡ code.old.items ++ switch_of plan.now.params.now.settings plan.now.code.now switch) }
{
    let count = plan.code.statements() as u32;
    let routine = routine_of(layout.descr() as u32, count, switch);
    code.extend_from_slice(&switch_code(layout, count, routine, routine + 64))?;
    append_table(code, plan, switch, routine)
}
