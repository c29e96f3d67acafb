// Parameter files of many layouts.
use sil_base::decimal;
use std::alloc::{AllocError, Global};

/// DESCR, AOFF, FOFF, FLEN, VOFF, VLEN and STSIZE.
pub type Sizes = [u64; 7];

/// The names of these numbers.
static NAMES: [&[u8]; 7] = [
    b"DESCR ", b"AOFF ", b"FOFF ", b"FLEN ", b"VOFF ", b"VLEN ", b"STSIZE ",
];

/// The other parameters.
const OTHERS: &[u8] =
    b"FNC 1\nMARK 2\nPTR 4\nSTTL 8\nTTL 16\nDYNSIZ 100\nOBSIZ 256\nUNITI 5\nUNITO 6\nUNITP 7\nDATE 01/01/70\n";

/// The text of the parameters with this layout.
pub fn params_of(alloc: Global, sizes: &Sizes) -> Result<Vec<u8>, AllocError> {
    let mut text = Vec::new(alloc);
    for (name, size) in NAMES.iter().zip(sizes.iter()) {
        text.extend_from_slice(name)?;
        decimal(&mut text, i128::from(*size))?;
        text.push(b'\n')?;
    }
    text.extend_from_slice(OTHERS)?;
    Ok(text)
}
