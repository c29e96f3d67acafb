// The instructions of the beginning of statements, of ends, and of jumps by entries.
ghost use Rattle.std.specs.Prelude.{◌≡◌, ◌-◌, ◌<◌, ◌^◌};
ghost use Rattle.rv_operations.specs.OpCodes.{begin_code, end_code, entry_code};

use crate::registers::moved_to;
use rv_isa::{BOp, IOp, Instr, UOp};
use rv_straight::{branch, far_lower, far_upper, immediate, lower, upper, upper_part};

/// How statement k begins: its number goes to x26, and a step is taken, or the run ends by the
/// bound.
pub fn begin(k: u32) -> [Instr; 7]
    requires { k < 2 ^ 31 - 2 ^ 11 }
    ensures { result ≡ begin_code k }
{
    [
        upper_part(UOp::Lui, 26, upper(u64::from(k)) as u32),
        immediate(IOp::Addi, 26, 26, lower(u64::from(k))),
        branch(BOp::Bne, 27, 0, 16),
        immediate(IOp::Addi, 17, 0, 1),
        immediate(IOp::Addi, 10, 0, 4),
        Instr::Ecall,
        immediate(IOp::Addi, 27, 27, -1),
    ]
}

/// The end of the run by the number in a register.
pub fn end(by: u8) -> [Instr; 3]
    requires { by < 16 }
    ensures { result ≡ end_code by }
{
    [
        moved_to(10, by),
        immediate(IOp::Addi, 17, 0, 1),
        Instr::Ecall,
    ]
}

/// A jump through the routine that finds a place by an entry.
pub fn jump_by_entry(entry: u8, place: u32, routine: u32) -> [Instr; 3]
    requires entry { entry < 16 }
    requires place { place < 2 ^ 31 }
    ensures { result ≡ entry_code entry place routine }
{
    let from = place + 4;
    [
        moved_to(10, entry),
        upper_part(UOp::Auipc, 28, far_upper(from, routine)),
        immediate(IOp::Jalr, 0, 28, far_lower(from, routine)),
    ]
}
