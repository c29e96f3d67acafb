// How rows tell faults.
use sil_base::{Fault, decimal};
use std::alloc::{AllocError, Global};

/// The cards and rules of faults, each with a `;` behind it.
pub fn text_of(alloc: Global, faults: &[Fault]) -> Result<Vec<u8>, AllocError> {
    let mut text = Vec::new(alloc);
    for fault in faults {
        decimal(&mut text, i128::from(fault.line.number))?;
        text.push(b' ')?;
        text.push(fault.code.letter)?;
        decimal(&mut text, i128::from(fault.code.rule))?;
        text.push(b';')?;
    }
    Ok(text)
}
