// What programs print on unit 6.
use sil_base::Record;
use std::alloc::{AllocError, Global};
use unit_io::{Tape, Unit};

/// An empty tape.
pub fn output(alloc: Global) -> Tape {
    Tape::new(alloc, Vec::<Record>::new(alloc), Vec::new(alloc))
}

/// The records of a unit, each behind some bytes and with an LF after it.
pub fn printed(
    alloc: Global,
    unit: Option<Box<dyn Unit>>,
    before: &[u8],
) -> Result<Vec<u8>, AllocError> {
    let mut text = Vec::new(alloc);
    let Some(unit) = unit else {
        return Ok(text);
    };
    for record in unit.known().unwrap_or(&[]) {
        text.extend_from_slice(before)?;
        text.extend_from_slice(record.bytes())?;
        text.push(b'\n')?;
    }
    Ok(text)
}
