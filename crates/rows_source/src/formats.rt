// The formats of programs.
use crate::check::checked;
use layout_params::STANDARD_PARAMS;
use sil_base::Record;
use sil_check::CheckStop;
use std::alloc::{AllocError, Global};

/// A source, and the texts of its formats in order, with a `;` behind each.
static ROWS: [(&[u8], &[u8]); 5] = [
    (b"S STRING '(I3)'\n END\n", b""),
    (b"F FORMAT '(I3)'\n END\n", b"(I3);"),
    (
        b"F FORMAT '(1H''/2X)'\n ENDEX Z\nS STRING '()'\n FORMAT '()'\nZ DESCR\n END\n",
        b"(1H'/2X);();",
    ),
    (
        b" FORMAT '( 3I 2 )'\n FORMAT '(3I2)'\n END\n",
        b"( 3I 2 );(3I2);",
    ),
    (
        b" FORMAT '(194H01234567890123456789012345678901234567890123456789012345678901234567890123456789012345678901234567890123456789012345678901234567890123456789012345678901234567890123456789012345678901234567890123)'\n END\n",
        b"(194H01234567890123456789012345678901234567890123456789012345678901234567890123456789012345678901234567890123456789012345678901234567890123456789012345678901234567890123456789012345678901234567890123);",
    ),
];

/// Texts with a `;` behind each.
fn joined(alloc: Global, texts: &[Record]) -> Result<Vec<u8>, AllocError> {
    let mut all = Vec::new(alloc);
    for text in texts {
        all.extend_from_slice(text.bytes())?;
        all.push(b';')?;
    }
    Ok(all)
}

/// The texts of the formats of a source's program.
fn formats_in(alloc: Global, source: &[u8]) -> Result<Vec<u8>, CheckStop> {
    let checked = checked(alloc, source, b"", STANDARD_PARAMS)?;
    Ok(joined(alloc, checked.program.formats.items())?)
}

#[test]
fn programs_have_the_formats_of_their_sources(rt: HostRuntime) {
    for &(source, expected) in &ROWS {
        let texts = formats_in(rt.alloc(), source).expect(&rt, "a program");
        assert_eq!(rt; texts.as_slice(), expected);
    }
}
