// Stores of zeros.
ghost use Rattle.std.specs.Prelude.{◌≡◌, ◌++◌, ◌*◌, ◌<◌, ◌≤◌, OnOk, pos};
ghost use Rattle.rv_routines.specs.RoutineCodes.{zeros_code};

use rv_isa::{Instr, SOp};
use rv_straight::store;
use std::alloc::AllocError;

/// The store of the k-th word.
fn store_word(k: u64) -> Instr
    requires { k < 8 }
    ensures { result ≡ Instr.S SOp.Sd 30 0 (pos (8 * k)) }
{
    store(SOp::Sd, 30, 0, (8 * k) as i16)
}

/// Appends stores of so many words of zeros at the address in x30.
pub fn append_zeros(code: &mut Vec<Instr>, words: u64) -> Result<(), AllocError>
    requires { words ≤ 8 }
    ensures { OnOk result (code.new.items ≡ code.old.items ++ zeros_code 0 words) }
{
    for k in 0..words {
        code.extend_from_slice(&[store_word(k)])?;
    }
    Ok(())
}
