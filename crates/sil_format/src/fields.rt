// What a data item writes of a value.
ghost use Rattle.std.specs.Prelude.{◌≡◌, IfOk};
ghost use Rattle.std.specs.Fmt.{signed_decimal};
ghost use Rattle.sil_format.specs.ItemFields.{placed, field_of};

use crate::format::DataKind;
use crate::value::Value;
use sil_base::{Items, decimal};
use std::alloc::{AllocError, Global};

/// What a data item writes of a value: bytes, or it meets Real or Unfit.
#[derive(Debug, Drop)]
pub(crate) enum Field {
    Bytes(Items<u8>),
    Real,
    Unfit,
}

/// The text right in so many places, or asterisks where it doesn't fit.
fn placed(alloc: Global, width: u16, text: &[u8]) -> Result<Vec<u8>, AllocError>
    ensures { IfOk result (λ v. v.items ≡ placed width text.now) }
{
    let width = usize::from(width);
    if text.len() > width {
        return vec![in alloc; b'*'; width];
    }
    let mut field = vec![in alloc; b' '; width - text.len()]?;
    field.extend_from_slice(text)?;
    Ok(field)
}

/// A number in decimal, right in so many places.
fn number_field(alloc: Global, width: u16, number: i64) -> Result<Vec<u8>, AllocError>
    ensures { IfOk result (λ v. v.items ≡ placed width (signed_decimal number)) }
{
    let mut text = Vec::new(alloc);
    decimal(&mut text, i128::from(number))?;
    placed(alloc, width, text.as_slice())
}

/// What a data item of this kind writes of a value.
pub(crate) fn field_of(alloc: Global, kind: DataKind, value: Value) -> Result<Field, AllocError>
    ensures { IfOk result (λ f. f ≡ field_of kind value) }
{
    match (kind, value) {
        (DataKind::Integer { width }, Value::Number(number)) => {
            Ok(Field::Bytes(Items::of(number_field(alloc, width, number)?)))
        }
        (DataKind::Character, Value::Char(byte)) => {
            Ok(Field::Bytes(Items::of(Vec::from_slice(alloc, &[byte])?)))
        }
        (DataKind::Real { .. }, _) => Ok(Field::Real),
        (DataKind::Integer { .. }, Value::Char(_)) | (DataKind::Character, Value::Number(_)) => {
            Ok(Field::Unfit)
        }
    }
}
