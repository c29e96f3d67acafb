// The values that a call prints.

ghost use Rattle.std.specs.Prelude.{◌≡◌, ◌*◌, ◌≤◌, ◌<◌, ◌^◌, IfOk, length, map, true};
ghost use Rattle.sil_format.specs.declared.value.Value.TheVariants.{Char, Number};
ghost use Rattle.rv_emulate.specs.Ecalls.{can_take, values_at, words_in};
ghost use Rattle.rv_emulate.specs.CpuView.{memory_of};

use crate::bytes::number_of;
use crate::memory::Regions;
use crate::pieces::bytes_at;
use sil_format::Value;
use std::alloc::{AllocError, Global};

/// The `count` values at an address: characters where `form` is 0, words where it is 1.
pub(crate) fn values_at(
    alloc: Global,
    constants: &[u8],
    regions: &Regions,
    address: u64,
    count: u64,
    form: u64,
) -> Result<Vec<Value>, AllocError>
    requires { can_take constants.now (memory_of regions.now) address count form ≡ true }
    ensures { IfOk result (λ v. v.items ≡ values_at constants.now (memory_of regions.now) address count form) }
{
    if form == 0 {
        characters(alloc, bytes_at(constants, regions, count, address))
    } else {
        words(
            alloc,
            bytes_at(constants, regions, 8 * count, address),
            count as usize,
        )
    }
}

/// Each byte as a character.
fn characters(alloc: Global, bytes: &[u8]) -> Result<Vec<Value>, AllocError>
    ensures { IfOk result (λ v. v.items ≡ map Char bytes.now) }
{
    let mut values = Vec::with_capacity(alloc, bytes.len())?;
    for k in 0..bytes.len() {
        values.push(Value::Char(bytes[k]))?;
    }
    Ok(values)
}

/// Words of eight bytes as signed numbers.
fn words(alloc: Global, bytes: &[u8], count: usize) -> Result<Vec<Value>, AllocError>
    requires len { length bytes.now ≡ 8 * count }
    requires few { count ≤ 40 }
    ensures { IfOk result (λ v. v.items ≡ map Number (words_in count bytes.now)) }
{
    let mut values = Vec::with_capacity(alloc, count)?;
    for k in 0..count {
        let word = number_of(&bytes[8 * k..8 * k + 8]);
        values.push(Value::Number(word.cast_signed()))?;
    }
    Ok(values)
}
