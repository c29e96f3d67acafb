// The places of micro registers, and operations on registers alone.
ghost use Rattle.std.specs.Prelude.{◌≡◌, ◌<◌};
ghost use Rattle.rv_operations.specs.OpCodes.{arith_op, branch_op, copy_code, moved_to};
ghost use Rattle.rv_operations.specs.Homes.{home};

use rv_isa::{BOp, IOp, Instr, ROp};
use rv_straight::immediate;
use sil_micro::{Arith, Test};

/// The place of a micro register.
pub fn home(r: u8) -> u8
    requires { r < 16 }
    ensures { result ≡ home r }
{
    if r < 9 { r + 1 } else { r + 9 }
}

/// A micro register is moved to a temporary.
pub fn moved_to(rd: u8, from: u8) -> Instr
    requires { from < 16 }
    ensures { result ≡ moved_to rd from }
{
    immediate(IOp::Addi, rd, home(from), 0)
}

/// The instruction that computes.
pub fn arith_op(kind: Arith) -> ROp
    ensures { result ≡ arith_op kind }
{
    match kind {
        Arith::Add => ROp::Add,
        Arith::Sub => ROp::Sub,
        Arith::Mul => ROp::Mul,
        Arith::MulHigh => ROp::Mulh,
        Arith::And => ROp::And,
        Arith::Or => ROp::Or,
        Arith::Div => ROp::Div,
        Arith::Rem => ROp::Rem,
    }
}

/// The branch that asks.
pub fn branch_op(test: Test) -> BOp
    ensures { result ≡ branch_op test }
{
    match test {
        Test::Eq => BOp::Beq,
        Test::Ne => BOp::Bne,
        Test::Lt => BOp::Blt,
        Test::Ge => BOp::Bge,
        Test::Ltu => BOp::Bltu,
        Test::Geu => BOp::Bgeu,
    }
}
