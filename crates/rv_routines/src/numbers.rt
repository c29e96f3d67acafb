// The routines that test a number, or set a word of the state.
ghost use Rattle.std.specs.Prelude.{◌≡◌, ◌-◌, ◌<◌, ◌^◌};
ghost use Rattle.rv_routines.specs.RoutineCodes.{below_routine, state_routine};

use rv_isa::{BOp, IOp, Instr, ROp, SOp, UOp};
use rv_straight::{branch, immediate, lower, operate, store, upper, upper_part};

/// Whether the number in x10 is below another.
#[tactic(auto, unfolding(crate::specs::RoutineCodes::below_routine))]
pub fn below_routine(n: u32) -> [Instr; 7]
    requires { n < 2 ^ 31 - 2 ^ 11 }
    ensures { result ≡ below_routine n }
{
    [
        upper_part(UOp::Lui, 28, upper(u64::from(n)) as u32),
        immediate(IOp::Addi, 28, 28, lower(u64::from(n))),
        branch(BOp::Bgeu, 10, 28, 8),
        immediate(IOp::Jalr, 0, 11, 0),
        immediate(IOp::Addi, 17, 0, 1),
        immediate(IOp::Addi, 10, 0, 3),
        Instr::Ecall,
    ]
}

/// Word 0 or 1 of the state is set to the number in x12, or the number of steps stays as it is.
#[tactic(auto, unfolding(crate::specs::RoutineCodes::state_routine))]
pub fn state_routine() -> [Instr; 14]
    ensures { result ≡ state_routine }
{
    [
        immediate(IOp::Addi, 28, 0, 2),
        branch(BOp::Bltu, 10, 28, 32),
        branch(BOp::Bne, 10, 28, 16),
        operate(ROp::Sub, 28, 25, 27),
        branch(BOp::Bne, 12, 28, 8),
        immediate(IOp::Jalr, 0, 11, 0),
        immediate(IOp::Addi, 17, 0, 1),
        immediate(IOp::Addi, 10, 0, 3),
        Instr::Ecall,
        immediate(IOp::Slli, 28, 10, 3),
        upper_part(UOp::Lui, 29, 0x6_C000),
        operate(ROp::Add, 28, 28, 29),
        store(SOp::Sd, 28, 12, 0),
        immediate(IOp::Jalr, 0, 11, 0),
    ]
}
