// The instructions of calls on units.
ghost use Rattle.std.specs.Prelude.{◌≡◌, ◌-◌, ◌++◌, ◌<◌, ◌≤◌, ◌^◌, OnOk, IsTrue, pos};
ghost use Rattle.sil_micro.specs.Forms.{are_values};
ghost use Rattle.rv_operations.specs.OpCodes.{text_code, values_code, call_unit_code};
ghost use Rattle.rv_operations.specs.OpSites.{IsText};

use crate::places::Links;
use crate::registers::{home, moved_to};
use rv_isa::{IOp, Instr, UOp};
use rv_straight::{immediate, lower, upper, upper_part};
use sil_micro::{Text, Values};
use std::alloc::AllocError;

/// Appends the text of a call, in x11 and x12.
pub fn append_text(code: &mut Vec<Instr>, links: &Links, text: Text) -> Result<(), AllocError>
    requires text { IsText text }
    requires at { links.now.text < 2 ^ 31 - 2 ^ 11 }
    requires len { links.now.text_len ≤ 256 }
    ensures { OnOk result (code.new.items ≡ code.old.items ++ text_code links.now text) }
{
    match text {
        Text::None => Ok(()),
        Text::Format(_) => code.extend_from_slice(&[
            upper_part(UOp::Lui, 11, upper(u64::from(links.text)) as u32),
            immediate(IOp::Addi, 11, 11, lower(u64::from(links.text))),
            immediate(IOp::Addi, 12, 0, links.text_len as i16),
        ]),
        Text::Chars { at, len } => code.extend_from_slice(&[moved_to(11, at), moved_to(12, len)]),
    }
}

/// Appends the values of a call, in x13 to x15.
pub fn append_values(code: &mut Vec<Instr>, values: Values) -> Result<(), AllocError>
    requires { IsTrue (are_values values) }
    ensures { OnOk result (code.new.items ≡ code.old.items ++ values_code values) }
{
    match values {
        Values::None => code.extend_from_slice(&[
            immediate(IOp::Addi, 14, 0, 0),
            immediate(IOp::Addi, 15, 0, 0),
        ]),
        Values::Words { count } => code.extend_from_slice(&[
            upper_part(UOp::Lui, 13, 0x6_C000),
            immediate(IOp::Addi, 13, 13, 16),
            immediate(IOp::Addi, 14, 0, i16::from(count)),
            immediate(IOp::Addi, 15, 0, 1),
        ]),
        Values::Chars { at, len } => code.extend_from_slice(&[
            moved_to(13, at),
            moved_to(14, len),
            immediate(IOp::Addi, 15, 0, 0),
        ]),
    }
}

/// The call itself, whose answer goes to a register.
pub fn call_unit(call: u8, to: u8) -> [Instr; 3]
    requires { to < 16 }
    ensures { result ≡ call_unit_code call to }
{
    [
        immediate(IOp::Addi, 17, 0, i16::from(call)),
        Instr::Ecall,
        immediate(IOp::Addi, home(to), 10, 0),
    ]
}
