// Texts in quotes.
ghost use Rattle.std.specs.Prelude.{false};
ghost use Rattle.sil_operands.specs.OperandReading.{Answers, text_in};

use crate::operand::OperandFault;
use sil_base::Record;
use std::alloc::Global;

/// The text whose first quote stands before these bytes, and whose last quote ends them.
pub(crate) fn read_text(alloc: Global, bytes: &[u8]) -> Result<Record, OperandFault>
    ensures { Answers result (text_in false bytes.now) }
{
    let mut text = Vec::new(alloc);
    let mut after_quote = false;
    for byte in bytes {
        if after_quote {
            if *byte != b'\'' {
                return Err(OperandFault::Bad);
            }
            text.push(b'\'')?;
            after_quote = false;
        } else if *byte == b'\'' {
            after_quote = true;
        } else {
            text.push(*byte)?;
        }
    }
    if after_quote {
        Ok(Record::of(alloc, &text)?)
    } else {
        Err(OperandFault::Bad)
    }
}
