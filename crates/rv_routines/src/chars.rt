// The routines that test a cell for characters, or make it characters.
ghost use Rattle.std.specs.Prelude.{◌≡◌, ◌++◌, ◌≤◌, ◌^◌, OnOk};
ghost use Rattle.rv_routines.specs.RoutineCodes.{char_routine, make_front, make_routine, word_routine};

use crate::check::{lower_count, upper_count};
use crate::fields::descr_of;
use crate::stores::append_zeros;
use layout_params::Layout;
use rv_isa::{BOp, IOp, Instr, ROp, SOp, UOp};
use rv_straight::{branch, immediate, operate, store, upper_part};
use std::alloc::AllocError;

/// Whether the cell in which the address in x10 lies has characters.
#[tactic(auto, unfolding(crate::specs::RoutineCodes::char_routine))]
pub fn char_routine<L: Layout>(layout: &L, count: u32) -> [Instr; 15]
    requires { count ≤ 2 ^ 20 }
    ensures { result ≡ char_routine (L.sizes layout.now).descr count }
{
    [
        upper_part(UOp::Lui, 28, 0x4_0000),
        operate(ROp::Sub, 28, 10, 28),
        immediate(IOp::Addi, 29, 0, descr_of(layout)),
        operate(ROp::Divu, 28, 28, 29),
        upper_part(UOp::Lui, 29, upper_count(count)),
        immediate(IOp::Addi, 29, 29, lower_count(count)),
        branch(BOp::Bgeu, 28, 29, 24),
        upper_part(UOp::Lui, 29, 0x5_0000),
        operate(ROp::Add, 28, 28, 29),
        immediate(IOp::Lbu, 28, 28, 0),
        branch(BOp::Beq, 28, 0, 8),
        immediate(IOp::Jalr, 0, 11, 0),
        immediate(IOp::Addi, 17, 0, 1),
        immediate(IOp::Addi, 10, 0, 3),
        Instr::Ecall,
    ]
}

/// Appends the same, behind the test that the address is a multiple of 8.
#[tactic(auto, unfolding(crate::specs::RoutineCodes::char_routine, crate::specs::RoutineCodes::word_routine))]
pub fn append_word<L: Layout>(
    code: &mut Vec<Instr>,
    layout: &L,
    count: u32,
) -> Result<(), AllocError>
    requires { count ≤ 2 ^ 20 }
    ensures { OnOk result (code.new.items ≡ code.old.items ++ word_routine (L.sizes layout.now).descr count) }
{
    code.extend_from_slice(&[immediate(IOp::Andi, 28, 10, 7), branch(BOp::Bne, 28, 0, 52)])?;
    code.extend_from_slice(&char_routine(layout, count))
}

/// The tests of the routine that makes a cell characters, and its mark.
fn make_tests<L: Layout>(layout: &L, count: u32) -> [Instr; 19]
    requires { count ≤ 2 ^ 20 }
    ensures { result ≡ make_front (L.sizes layout.now).descr count }
{
    [
        upper_part(UOp::Lui, 28, 0x4_0000),
        operate(ROp::Sub, 28, 10, 28),
        immediate(IOp::Addi, 29, 0, descr_of(layout)),
        operate(ROp::Remu, 30, 28, 29),
        operate(ROp::Divu, 28, 28, 29),
        upper_part(UOp::Lui, 29, upper_count(count)),
        immediate(IOp::Addi, 29, 29, lower_count(count)),
        branch(BOp::Bgeu, 28, 29, 24),
        upper_part(UOp::Lui, 29, 0x5_0000),
        operate(ROp::Add, 28, 28, 29),
        immediate(IOp::Lbu, 29, 28, 0),
        branch(BOp::Beq, 29, 0, 20),
        immediate(IOp::Jalr, 0, 11, 0),
        immediate(IOp::Addi, 17, 0, 1),
        immediate(IOp::Addi, 10, 0, 3),
        Instr::Ecall,
        immediate(IOp::Addi, 29, 0, 1),
        store(SOp::Sb, 28, 29, 0),
        operate(ROp::Sub, 30, 10, 30),
    ]
}

/// Appends the routine that makes the cell in which the address in x10 lies characters.
#[tactic(auto, using(crate::proofs::Appended::in_three), unfolding(crate::specs::RoutineCodes::make_routine))]
pub fn append_make<L: Layout>(
    code: &mut Vec<Instr>,
    layout: &L,
    count: u32,
) -> Result<(), AllocError>
    requires { count ≤ 2 ^ 20 }
    ensures { OnOk result (code.new.items ≡ code.old.items ++ make_routine (L.sizes layout.now).descr count) }
{
    code.extend_from_slice(&make_tests(layout, count))?;
    append_zeros(code, layout.descr() / 8)?;
    code.extend_from_slice(&[immediate(IOp::Jalr, 0, 11, 0)])
}
