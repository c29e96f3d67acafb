// The routine that opens a cell to be written whole.
ghost use Rattle.std.specs.Prelude.{◌≡◌, ◌<◌, ◌≤◌, ◌^◌};
ghost use Rattle.rv_routines.specs.RoutineCodes.{open_routine};

use crate::check::{lower_count, upper_count};
use crate::fields::descr_of;
use layout_params::Layout;
use rv_isa::{BOp, IOp, Instr, ROp, SOp, UOp};
use rv_straight::{branch, immediate, operate, store, upper_part};

/// The cell at the address in x10 becomes a descriptor, where the numbers in x12 and x13 have so
/// many bits.
#[tactic(auto, unfolding(crate::specs::RoutineCodes::open_routine))]
pub fn open_routine<L: Layout>(layout: &L, f_bits: u8, v_bits: u8, count: u32) -> [Instr; 20]
    requires f_bits { f_bits < 64 }
    requires v_bits { v_bits < 64 }
    requires count { count ≤ 2 ^ 20 }
    ensures { result ≡ open_routine f_bits v_bits (L.sizes layout.now).descr count }
{
    [
        immediate(IOp::Srli, 28, 12, f_bits as i16),
        branch(BOp::Bne, 28, 0, 64),
        immediate(IOp::Srli, 28, 13, v_bits as i16),
        branch(BOp::Bne, 28, 0, 56),
        upper_part(UOp::Lui, 28, 0x4_0000),
        operate(ROp::Sub, 28, 10, 28),
        immediate(IOp::Addi, 29, 0, descr_of(layout)),
        operate(ROp::Remu, 30, 28, 29),
        branch(BOp::Bne, 30, 0, 36),
        operate(ROp::Divu, 28, 28, 29),
        upper_part(UOp::Lui, 29, upper_count(count)),
        immediate(IOp::Addi, 29, 29, lower_count(count)),
        branch(BOp::Bgeu, 28, 29, 20),
        upper_part(UOp::Lui, 29, 0x5_0000),
        operate(ROp::Add, 28, 28, 29),
        store(SOp::Sb, 28, 0, 0),
        immediate(IOp::Jalr, 0, 11, 0),
        immediate(IOp::Addi, 17, 0, 1),
        immediate(IOp::Addi, 10, 0, 3),
        Instr::Ecall,
    ]
}
