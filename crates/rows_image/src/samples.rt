// Bytes of images, to be changed by the rows.
use image_file::{Image, ImageStop, load_image, write_image};
use layout_params::{STANDARD_PARAMS, read_params};
use sil_macros::Macro;
use std::alloc::Global;
use std::test::Fail;

/// An image whose bytes the rows change. Each has the standard parameters: 152 bytes stand before its
/// parts.
#[derive(Clone, Copy, PartialEq, Eq, Debug)]
pub enum Sample {
    /// Two statements, three code words, ten constant bytes and three cells: 257 bytes.
    Small,
    /// One code word: 156 bytes.
    Bare,
    /// One code word and two tables of CONTIN: 8,348 bytes.
    Tables,
}

const STATEMENTS: [(u64, u32, Macro); 2] = [
    (0x1_0000, 1, Macro::Output),
    (0x1_0008, 2, Macro::Endex),
];

impl Sample {
    pub fn bytes(self, alloc: Global) -> Result<Vec<u8>, Fail> {
        let params = read_params(alloc, STANDARD_PARAMS)?;
        let mut statements = Vec::new(alloc);
        let mut words = Vec::from_slice(alloc, &[0u32])?;
        let mut constants = Vec::new(alloc);
        let mut cells = Vec::new(alloc);
        let mut kinds = Vec::new(alloc);
        let mut tables = Vec::new(alloc);
        if self == Sample::Small {
            statements.extend_from_slice(&STATEMENTS)?;
            words.extend_from_slice(&[0x13, 0x73])?;
            constants.extend_from_slice(b"(6H HELLO)")?;
            cells.resize(48, 0)?;
            kinds.extend_from_slice(&[0, 0, 1])?;
        }
        if self == Sample::Tables {
            tables.resize(8192, 0)?;
        }
        let image = Image::new(&params, statements, words, constants, cells, kinds, tables);
        match image {
            Some(image) => Ok(write_image(alloc, &image)?),
            None => Err(ImageStop::Part(0))?,
        }
    }
}

/// The part by which bytes are refused. Where they aren't, they have to be those that are written of
/// their image.
pub fn refused_part(alloc: Global, bytes: &[u8]) -> Result<Option<u8>, Fail> {
    match load_image(alloc, bytes) {
        Ok(image) => {
            let again = write_image(alloc, &image)?;
            Ok(if again.as_slice() == bytes {
                None
            } else {
                Some(0)
            })
        }
        Err(ImageStop::Part(part)) => Ok(Some(part)),
        Err(stop) => Err(stop)?,
    }
}

/// Writes bytes over those from a place on.
pub fn put_at(bytes: &mut [u8], place: usize, new: &[u8]) {
    if let Some(part) = bytes.get_mut(place..place.saturating_add(new.len())) {
        part.copy_from_slice(new);
    }
}
