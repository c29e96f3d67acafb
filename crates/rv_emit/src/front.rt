// What stands before the operations and behind them.
ghost use Rattle.std.specs.Prelude.{◌≡◌, ◌+◌, ◌-◌, ◌++◌, ◌<◌, ◌≤◌, ◌^◌, OnOk};
ghost use Rattle.layout_params.specs.Areas.{all_cells, empty_stack};
ghost use Rattle.layout_params.specs.declared.cell.Field.TheVariants.{F, V};
ghost use Rattle.sil_micro.specs.Operations.{scratch_words};
ghost use Rattle.rv_routines.specs.FieldCodes.{bits_of};
ghost use Rattle.rv_routines.specs.RoutineCodes.{check_routine, fit_routine, open_routine, char_routine, word_routine, below_routine, make_routine, kind_routine, state_routine};
ghost use Rattle.rv_emit.specs.Code.{natural_of, past_code, start_code};
ghost use Rattle.rv_emit.specs.Planned.{IsPlanned, front_of, routines_of};

use crate::links::{all_cells, cell_place, hidden_cells};
use crate::plan::{Plan, Switch};
use crate::switches::append_switch;
use layout_params::{Field, Layout, Params};
use rv_isa::{IOp, Instr, SOp, UOp};
use rv_routines::{
    append_fit, append_kind, append_make, append_word, below_routine, bits_of, char_routine,
    check_routine, open_routine, state_routine,
};
use rv_straight::{far_lower, far_upper, immediate, lower, store, upper, upper_part};
use std::alloc::AllocError;

/// The place of the jump to the first statement.
const FIRST_JUMP: u32 = 0x1_0014;

/// The numbers of scratch words are below this.
const SCRATCH_WORDS: u32 = 8190;

/// The address of the cell before the stack, over so many static cells.
fn stack_top(params: &Params, statics: u64) -> u32
    requires { all_cells params.now.settings statics ≤ 2 ^ 20 }
    ensures value { result ≡ natural_of (empty_stack params.now.settings statics) }
    ensures low { result < 2 ^ 31 - 2 ^ 11 }
{
    let below = statics + hidden_cells(params) + params.dynamic_size();
    (cell_place(params, below) - params.numbers().descr()) as u32
}

/// The start: the address of the cell before the stack goes into the first two words of scratch, and
/// the run to a place.
fn start_code(top: u32, to: u32) -> [Instr; 7]
    requires { top < 2 ^ 31 - 2 ^ 11 }
    ensures { result ≡ start_code top to }
{
    [
        upper_part(UOp::Lui, 28, 0x6_C000),
        upper_part(UOp::Lui, 29, upper(u64::from(top)) as u32),
        immediate(IOp::Addi, 29, 29, lower(u64::from(top))),
        store(SOp::Sd, 28, 29, 0),
        store(SOp::Sd, 28, 29, 8),
        upper_part(UOp::Auipc, 28, far_upper(FIRST_JUMP, to)),
        immediate(IOp::Jalr, 0, 28, far_lower(FIRST_JUMP, to)),
    ]
}

/// Appends the routines that test a cell for a descriptor.
fn append_checks<L: Layout>(code: &mut Vec<Instr>, layout: &L, cells: u32) -> Result<(), AllocError>
    requires { cells ≤ 2 ^ 20 }
    ensures { OnOk result (code.new.items ≡ code.old.items ++ check_routine (L.sizes layout.now).descr cells ++ fit_routine (bits_of (L.sizes layout.now) F) (L.sizes layout.now).descr cells ++ fit_routine (bits_of (L.sizes layout.now) V) (L.sizes layout.now).descr cells ++ open_routine (bits_of (L.sizes layout.now) F) (bits_of (L.sizes layout.now) V) (L.sizes layout.now).descr cells) }
{
    let f_bits = bits_of(layout, Field::F);
    let v_bits = bits_of(layout, Field::V);
    code.extend_from_slice(&check_routine(layout, cells))?;
    append_fit(code, layout, f_bits, cells)?;
    append_fit(code, layout, v_bits, cells)?;
    code.extend_from_slice(&open_routine(layout, f_bits, v_bits, cells))
}

/// Appends the routines that look for characters, and those that test a number.
fn append_tests<L: Layout>(code: &mut Vec<Instr>, layout: &L, cells: u32) -> Result<(), AllocError>
    requires { cells ≤ 2 ^ 20 }
    ensures { OnOk result (code.new.items ≡ code.old.items ++ char_routine (L.sizes layout.now).descr cells ++ word_routine (L.sizes layout.now).descr cells ++ below_routine scratch_words ++ below_routine cells ++ below_routine 3) }
{
    code.extend_from_slice(&char_routine(layout, cells))?;
    append_word(code, layout, cells)?;
    code.extend_from_slice(&below_routine(SCRATCH_WORDS))?;
    code.extend_from_slice(&below_routine(cells))?;
    code.extend_from_slice(&below_routine(3))
}

/// Appends the routines that set a word of the state, make a cell characters, and set a kind.
fn append_stores<L: Layout>(code: &mut Vec<Instr>, layout: &L, cells: u32) -> Result<(), AllocError>
    requires { cells ≤ 2 ^ 20 }
    ensures { OnOk result (code.new.items ≡ code.old.items ++ state_routine ++ make_routine (L.sizes layout.now).descr cells ++ kind_routine (L.sizes layout.now).descr cells) }
{
    code.extend_from_slice(&state_routine())?;
    append_make(code, layout, cells)?;
    append_kind(code, layout, cells)
}

/// Appends the routines over all cells.
fn append_routines<L: Layout>(
    code: &mut Vec<Instr>,
    plan: &Plan<'_>,
    layout: &L,
) -> Result<(), AllocError>
    requires plan { IsPlanned plan.now.params.now.settings plan.now.code.now plan.now.ops.now }
    requires layout { L.sizes layout.now ≡ plan.now.params.now.settings.sizes }
    ensures { OnOk result (code.new.items ≡ code.old.items ++ routines_of plan.now.params.now.settings plan.now.code.now) }
{
    let cells = all_cells(plan.params, u64::from(plan.code.static_cells())) as u32;
    append_checks(code, layout, cells)?;
    append_tests(code, layout, cells)?;
    append_stores(code, layout, cells)
}

/// Appends what stands before the operations: the start, the routines, and the tables of statements.
pub fn append_front<L: Layout>(
    code: &mut Vec<Instr>,
    plan: &Plan<'_>,
    layout: &L,
) -> Result<(), AllocError>
    requires plan { IsPlanned plan.now.params.now.settings plan.now.code.now plan.now.ops.now }
    requires layout { L.sizes layout.now ≡ plan.now.params.now.settings.sizes }
    ensures { OnOk result (code.new.items ≡ code.old.items ++ front_of plan.now.params.now.settings plan.now.code.now) }
{
    let top = stack_top(plan.params, u64::from(plan.code.static_cells()));
    code.extend_from_slice(&start_code(top, plan.statement(0)))?;
    append_routines(code, plan, layout)?;
    append_switch(code, plan, layout, Switch::Entry)?;
    append_switch(code, plan, layout, Switch::ReturnPart)
}

/// The end past the last statement: the number of statements is that of the current one, and the run
/// ends as undefined.
pub fn past_code(count: u32) -> [Instr; 5]
    requires { count < 2 ^ 31 - 2 ^ 11 }
    ensures { result ≡ past_code count }
{
    [
        upper_part(UOp::Lui, 26, upper(u64::from(count)) as u32),
        immediate(IOp::Addi, 26, 26, lower(u64::from(count))),
        immediate(IOp::Addi, 17, 0, 1),
        immediate(IOp::Addi, 10, 0, 3),
        Instr::Ecall,
    ]
}
