// The routines that test a cell for a descriptor.
ghost use Rattle.std.specs.Prelude.{◌≡◌, ◌++◌, ◌<◌, ◌≤◌, ◌^◌, OnOk};
ghost use Rattle.rv_straight.specs.Constants.{lower_of, upper_of};
ghost use Rattle.rv_routines.specs.RoutineCodes.{check_routine, fit_routine};

use crate::fields::descr_of;
use layout_params::Layout;
use rv_isa::{BOp, IOp, Instr, ROp, UOp};
use rv_straight::{branch, immediate, lower, operate, upper, upper_part};
use std::alloc::AllocError;

/// The upper part of a number of cells.
pub fn upper_count(count: u32) -> u32
    requires { count ≤ 2 ^ 20 }
    ensures { result ≡ upper_of count }
{
    upper(u64::from(count)) as u32
}

pub fn lower_count(count: u32) -> i16
    ensures { result ≡ lower_of count }
{
    lower(u64::from(count))
}

/// Whether the cell at the address in x10 is one of so many cells, and a descriptor.
#[tactic(auto, unfolding(crate::specs::RoutineCodes::check_routine))]
pub fn check_routine<L: Layout>(layout: &L, count: u32) -> [Instr; 17]
    requires { count ≤ 2 ^ 20 }
    ensures { result ≡ check_routine (L.sizes layout.now).descr count }
{
    [
        upper_part(UOp::Lui, 28, 0x4_0000),
        operate(ROp::Sub, 28, 10, 28),
        immediate(IOp::Addi, 29, 0, descr_of(layout)),
        operate(ROp::Remu, 30, 28, 29),
        branch(BOp::Bne, 30, 0, 40),
        operate(ROp::Divu, 28, 28, 29),
        upper_part(UOp::Lui, 29, upper_count(count)),
        immediate(IOp::Addi, 29, 29, lower_count(count)),
        branch(BOp::Bgeu, 28, 29, 24),
        upper_part(UOp::Lui, 29, 0x5_0000),
        operate(ROp::Add, 28, 28, 29),
        immediate(IOp::Lbu, 28, 28, 0),
        branch(BOp::Bne, 28, 0, 8),
        immediate(IOp::Jalr, 0, 11, 0),
        immediate(IOp::Addi, 17, 0, 1),
        immediate(IOp::Addi, 10, 0, 3),
        Instr::Ecall,
    ]
}

/// Appends the same, behind the test that the number in x12 has so many bits.
#[tactic(auto, unfolding(crate::specs::RoutineCodes::check_routine, crate::specs::RoutineCodes::fit_routine))]
pub fn append_fit<L: Layout>(
    code: &mut Vec<Instr>,
    layout: &L,
    bits: u8,
    count: u32,
) -> Result<(), AllocError>
    requires bits { bits < 64 }
    requires count { count ≤ 2 ^ 20 }
    ensures { OnOk result (code.new.items ≡ code.old.items ++ fit_routine bits (L.sizes layout.now).descr count) }
{
    code.extend_from_slice(&[
        immediate(IOp::Srli, 28, 12, bits as i16),
        branch(BOp::Bne, 28, 0, 60),
    ])?;
    code.extend_from_slice(&check_routine(layout, count))
}
