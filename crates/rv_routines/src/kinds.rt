// The routine that sets the kind of a cell.
ghost use Rattle.std.specs.Prelude.{◌≡◌, ◌++◌, ◌≤◌, ◌^◌, OnOk};
ghost use Rattle.rv_routines.specs.RoutineCodes.{kind_front, kind_routine};

use crate::check::{lower_count, upper_count};
use crate::fields::descr_of;
use crate::stores::append_zeros;
use layout_params::Layout;
use rv_isa::{BOp, IOp, Instr, ROp, SOp, UOp};
use rv_straight::{branch, immediate, operate, store, upper_part};
use std::alloc::AllocError;

/// Its tests, and the kind.
fn kind_tests<L: Layout>(layout: &L, count: u32) -> [Instr; 15]
    requires { count ≤ 2 ^ 20 }
    ensures { result ≡ kind_front (L.sizes layout.now).descr count }
{
    [
        immediate(IOp::Addi, 28, 0, 2),
        branch(BOp::Bgeu, 12, 28, 16),
        upper_part(UOp::Lui, 28, upper_count(count)),
        immediate(IOp::Addi, 28, 28, lower_count(count)),
        branch(BOp::Bltu, 10, 28, 16),
        immediate(IOp::Addi, 17, 0, 1),
        immediate(IOp::Addi, 10, 0, 3),
        Instr::Ecall,
        upper_part(UOp::Lui, 28, 0x5_0000),
        operate(ROp::Add, 28, 28, 10),
        store(SOp::Sb, 28, 12, 0),
        immediate(IOp::Addi, 29, 0, descr_of(layout)),
        operate(ROp::Mul, 29, 10, 29),
        upper_part(UOp::Lui, 30, 0x4_0000),
        operate(ROp::Add, 30, 30, 29),
    ]
}

/// Appends the routine that makes the cell of the number in x10 zeros of the kind in x12.
#[tactic(auto, using(crate::proofs::Appended::in_three), unfolding(crate::specs::RoutineCodes::kind_routine))]
pub fn append_kind<L: Layout>(
    code: &mut Vec<Instr>,
    layout: &L,
    count: u32,
) -> Result<(), AllocError>
    requires { count ≤ 2 ^ 20 }
    ensures { OnOk result (code.new.items ≡ code.old.items ++ kind_routine (L.sizes layout.now).descr count) }
{
    code.extend_from_slice(&kind_tests(layout, count))?;
    append_zeros(code, layout.descr() / 8)?;
    code.extend_from_slice(&[immediate(IOp::Jalr, 0, 11, 0)])
}
